// The tasks of a run by their numbers, and the objects' words.
//
// `Tasks::open` begins a card: main is task 0, and there is room for every task that the card can make.
// `Tasks::step` makes one step of a task and answers a `Progress`, or the fault that it met; a child gets the next number.
// The other calls read: `count`, `words`, `place`, `declared` and `declares`.
#![tactic(auto)]

mod open;
mod reads;
mod step;
mod tasks;

pub use step::Progress;
pub use tasks::Tasks;
