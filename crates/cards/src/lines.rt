// The small parts of a card's lines.
ghost use Rattle.std.specs.Prelude.{◌≡◌};
ghost use Rattle.cards.specs.Levels as Levels;

// What a task may do to an object: read it, write it, or join to it.
#[derive(Clone, Copy, Debug, PartialEq, Eq)]
pub enum Access {
    Rd,
    Wr,
    Cm,
}

// How an access is declared.
#[derive(Clone, Copy, Debug, Default, PartialEq, Eq)]
pub enum Level {
    #[default]
    Absent,
    Deferred,
    Immediate,
}

impl Level {
    // Whether it is declared at all, at once or deferred.
    pub fn is_held(self) -> bool
        ensures { result ≡ Levels.held self }
    {
        self != Level::Absent
    }

    pub fn is_immediate(self) -> bool
        ensures { result ≡ Levels.is_immediate self }
    {
        self == Level::Immediate
    }
}

// One line of a declaration section.
#[derive(Clone, Copy, Debug, PartialEq, Eq)]
pub struct Declaration {
    pub line: u32,
    pub access: Access,
    pub level: Level,
    pub pointer: u8,
}

// The value kind that a card names.
#[derive(Clone, Copy, Debug, PartialEq, Eq)]
pub enum KindName {
    Tally,
    Flags,
}

// The order of work that a card names.
#[derive(Clone, Copy, Debug, PartialEq, Eq)]
pub enum OrderName {
    First,
    Last,
    Turns,
    Narrow,
}
