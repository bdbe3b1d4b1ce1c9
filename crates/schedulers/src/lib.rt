// Schedulers: which of the tasks that are offered goes next.
//
// `Scheduler` is the interface.
// `First` and `Last` choose the ends of the list, `Turns` goes round the task numbers, and
// `Narrow` shows another scheduler only the front of the list.
// `CardOrder` is whichever of these a card names.
#![tactic(auto)]

mod card_order;
mod ends;
mod narrow;
mod scheduler;
mod turns;

pub use card_order::CardOrder;
pub use ends::{First, Last};
pub use narrow::Narrow;
pub use scheduler::Scheduler;
pub use turns::Turns;

#[cfg(test)]
mod tests;
