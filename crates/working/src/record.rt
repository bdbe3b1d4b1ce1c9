// What a task holds apart from its work.
ghost use Rattle.std.specs.Prelude.{◌≡◌, ◌≤◌, length};

use crate::declared::Declared;

// A task's words, pointers and declarations; the first `objects` of the declarations count. Fixed memory: a maker's are
// copied to its children.
#[derive(Clone, Copy)]
pub struct Record {
    pub words: [u32; 4],
    pub pointers: [u8; 4],
    pub declared: [Declared; 16],
    pub objects: u8,
    ghost few: { objects ≤ 16 },
    ghost wide: { length declared ≡ 16 },
}
