// The refusals of a bench's calls.
#[derive(Clone, Copy, Debug, PartialEq, Eq)]
pub enum Refusal {
    NothingToOffer,
    Foreign,
    Unsettled,
    BufferTooShort,
}
