// Working cards.
//
// A `Task` has a `Record`, what it holds, and a `Work`, what it has still to do. `Task::step` makes one step of it: a
// `Stepped`, or the `Fault` that ends its work. A child comes as a `Record` and a `Fresh`, of which `Task::begin` makes a
// task, with room from `Frames::new`. `Record::main`, `Fresh::main` and `starting_words` are where a card begins.
// `work_serially` works a whole card, each child as soon as it is made, and answers a `Worked`.
#![tactic(auto)]

mod declarations;
mod declared;
mod effect;
mod fault;
mod frame;
mod moves;
mod pile;
mod place;
mod record;
mod serial;
mod step;
mod task;
mod work;

pub use declared::Declared;
pub use fault::{Fault, FaultKind, TaskFault};
pub use place::Place;
pub use record::Record;
pub use serial::{Worked, starting_words, work_serially};
pub use step::Stepped;
pub use task::Task;
pub use work::{Frames, Fresh, Work};
