// Loading: a text becomes a card in a slot, or a refusal says why it is none.
//
// `Slot` holds a card, always one within its limits; `Slot::load` reads a text into it. `LoadRefusal` is a word's
// fault inside a line's fault inside the refusal, and `Told` its number, line and word.
#![tactic(auto)]

mod blocks;
mod cursor;
mod head;
mod header;
mod line;
mod read_line;
mod refusal;
mod slot;
mod tables;
mod tell;
mod texts;

pub use refusal::{LineFault, LoadRefusal, Told};
pub use slot::Slot;
