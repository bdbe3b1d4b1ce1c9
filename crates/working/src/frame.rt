// What waits below the block that is worked.
use cards::Block;

// Rounds left of a block, with the line of their statement, and the rest after it.
#[derive(Clone, Copy)]
pub(crate) struct Rounds<'c> {
    pub line: u32,
    pub left: u8,
    pub body: &'c Block,
    pub rest: &'c Block,
}

// The rest of a block; or rounds, and then the rest.
#[derive(Clone, Copy)]
pub(crate) enum Frame<'c> {
    After(&'c Block),
    Again(Rounds<'c>),
}
