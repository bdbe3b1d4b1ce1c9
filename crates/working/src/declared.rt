// What a task declares on one object.
use cards::Level;

#[derive(Clone, Copy, Debug, PartialEq, Eq)]
pub struct Declared {
    pub reads: Level,
    pub writes: Level,
    pub commutes: Level,
}

impl Declared {
    pub const NOTHING: Declared = Declared {
        reads: Level::Absent,
        writes: Level::Absent,
        commutes: Level::Absent,
    };

    pub const EVERYTHING: Declared = Declared {
        reads: Level::Deferred,
        writes: Level::Deferred,
        commutes: Level::Deferred,
    };
}
