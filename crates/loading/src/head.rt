// What the lines before the lines section say.
ghost use Rattle.std.specs.Prelude.{◌≤◌, vec_len};

use cards::{KindName, OrderName};

// The kind, the order, the objects' first words, and how many lines the lines section has.
#[derive(Drop)]
pub struct Header {
    pub kind: KindName,
    pub order: OrderName,
    pub words: Vec<i16>,
    pub lines: u16,
    ghost an_object: { 1 ≤ vec_len words },
    ghost objects: { vec_len words ≤ 16 },
    ghost few: { lines ≤ 256 },
}
