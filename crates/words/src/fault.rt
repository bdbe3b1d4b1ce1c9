// A word's fault.
use crate::tokens::Place;

// The first word of a line that is unfit, missing or surplus.
#[derive(Clone, Copy, Debug, PartialEq, Eq)]
pub enum WordFault {
    Unfit(Place),
    Missing(Place),
    Surplus(Place),
}
