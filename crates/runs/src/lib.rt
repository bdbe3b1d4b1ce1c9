// Runs of a card on a bench.
//
// The crate holds the bench as definitions (`specs/`), and the theorem that whatever the order of turns, a run
// comes to what serial working of the card comes to. `runs_agree` states it of every list of calls,
// `work_offs_end` of working off under any scheduler, and `examples` has runs that are computed.
#![tactic(auto)]

mod agree;
mod entry;
mod refusal;

pub use agree::{examples, runs_agree, work_offs_end};
pub use entry::Entry;
pub use refusal::Refusal;
