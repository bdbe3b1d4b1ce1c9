// The bench: a card is worked on it by turns.
//
// `Bench::open` gives a bench and a `Going`, the state of its run. `take` gives a `Turn`, which `perform` or `hand_back`
// spends; `look` shows what stands in a queue, `work_off` takes and performs until the run can be closed. `close` turns
// `Going` into `Closed`, for which `sheet` writes the run's sheet. A refused call hands back what was given up: `Refused`.
#![tactic(auto)]

mod advance;
mod answers;
mod bench;
mod choose;
mod ends;
mod follow;
mod open;
mod page;
mod tokens;
mod turns;

pub use answers::Refused;
pub use bench::Bench;
pub use tokens::{Closed, Going, Turn};
