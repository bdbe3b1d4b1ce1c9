// What a place of a line is read as.
ghost use Rattle.std.specs.Prelude.{◌≡◌, ◌≤◌, IfOk};
ghost use Rattle.std.specs.Fn.{FnOnceReturnsAt};
ghost use Rattle.words.specs.Tokens.{seen};
ghost use Rattle.words.specs.Reading.{ReadBy, exact, as_number, as_literal, local_word, pointer_word, object_word, no_word, local_of, pointer_of};

use crate::fault::WordFault;
use crate::names::{Name, read_name};
use crate::numbers::{read_literal, read_number};
use crate::tokens::Token;
use cards::{Local, Pointer};

impl<'a> Token<'a> {
    // The word as `read` reads it, or its fault.
    pub fn read<T, F: FnOnce(&[u8]) -> Option<T> + Drop>(self, read: F) -> Result<T, WordFault>
        requires { F.IsAlwaysCallable read }
        ensures { ReadBy (FnOnceReturnsAt F.FnOnce read) (seen self.entry) result }
    {
        match self {
            Token::Word { bytes, place } => read(bytes).ok_or(WordFault::Unfit(place)),
            Token::Absent { place } => Err(WordFault::Missing(place)),
        }
    }

    // This word and no other.
    #[tactic(auto, unfolding(crate::specs::Reading::is_word))]
    pub fn exactly(self, word: &[u8]) -> Result<(), WordFault>
        ensures { result ≡ exact word.now (seen self.entry) }
    {
        self.read(|bytes| if bytes == word { Some(()) } else { None })
    }

    // A number from `min` to `max`.
    pub fn number(self, min: u16, max: u16) -> Result<u16, WordFault>
        ensures value { result ≡ as_number min max (seen self.entry) }
        ensures low { IfOk result (λ n. min ≤ n) }
        ensures high { IfOk result (λ n. n ≤ max) }
    {
        self.read(|bytes| read_number(bytes, max).filter(|n| min <= *n))
    }

    // A whole number from -32768 to 32767.
    pub fn literal(self) -> Result<i16, WordFault>
        ensures { result ≡ as_literal (seen self.entry) }
    {
        self.read(read_literal)
    }

    // The readings of a name differ in the variant alone, and no parameter stands for a variant.

    // One of n0 to n3.
    pub fn local(self) -> Result<Local, WordFault>
        ensures { local_of result ≡ local_word (seen self.entry) }
    {
        self.read(|bytes| match read_name(bytes) {
            Some(Name::Local(i)) => Some(i),
            _ => None,
        })
    }

    // One of p0 to p3.
    pub fn pointer(self) -> Result<Pointer, WordFault>
        ensures { pointer_of result ≡ pointer_word (seen self.entry) }
    {
        self.read(|bytes| match read_name(bytes) {
            Some(Name::Pointer(i)) => Some(i),
            _ => None,
        })
    }

    // One of o0 to o15.
    pub fn object(self) -> Result<u8, WordFault>
        ensures { result ≡ object_word (seen self.entry) }
    {
        self.read(|bytes| match read_name(bytes) {
            Some(Name::Object(i)) => Some(i),
            _ => None,
        })
    }

    // No word more.
    pub fn nothing(self) -> Result<(), WordFault>
        ensures { result ≡ no_word (seen self.entry) }
    {
        match self {
            Token::Word { place, .. } => Err(WordFault::Surplus(place)),
            Token::Absent { .. } => Ok(()),
        }
    }
}
