// The words of a text's lines, and what they can be read as.
//
// `cut` parts a text at a byte, `tokenize` parts a line into words that borrow the text's bytes, and the methods of
// `Token` read a word as a name, a number or a fixed word, or answer its fault.
#![tactic(auto)]

mod fault;
mod names;
mod numbers;
mod reading;
mod tokens;

pub use fault::WordFault;
pub use names::Name;
pub use tokens::{Place, Token, Tokens, cut, tokenize};
