// The words that a line may begin with, and those that name a kind or an order.
ghost use Rattle.std.specs.Prelude.{◌≡◌};
ghost use Rattle.words.specs.Tokens.{seen};
ghost use Rattle.words.specs.Reading.{read_by};
ghost use Rattle.loading.specs.Lines as Lines;

use crate::line::{Keyword, Verb};
use cards::{Access, KindName, Level, OrderName};
use words::{Token, WordFault};

pub(crate) const KINDS: [(&[u8], KindName); 2] = [
    (b"tally", KindName::Tally),
    (b"flags", KindName::Flags),
];

pub(crate) const ORDERS: [(&[u8], OrderName); 4] = [
    (b"first", OrderName::First),
    (b"last", OrderName::Last),
    (b"turns", OrderName::Turns),
    (b"narrow", OrderName::Narrow),
];

pub(crate) const STATEMENTS: [(&[u8], Verb); 9] = [
    (b"set", Verb::Set),
    (b"add", Verb::Add),
    (b"point", Verb::Point),
    (b"alias", Verb::Alias),
    (b"read", Verb::Read),
    (b"write", Verb::Write),
    (b"join", Verb::Join),
    (b"if", Verb::If),
    (b"repeat", Verb::Repeat),
];

pub(crate) const KEYWORDS: [(&[u8], Verb); 6] = [
    (b"else", Verb::Bare(Keyword::Else)),
    (b"task", Verb::Bare(Keyword::Task)),
    (b"do", Verb::Bare(Keyword::Do)),
    (b"with", Verb::Bare(Keyword::With)),
    (b"cont", Verb::Bare(Keyword::Cont)),
    (b"end", Verb::Bare(Keyword::End)),
];

pub(crate) const DECLARATIONS: [(&[u8], Verb); 9] = [
    (b"rd", Verb::Declare(Access::Rd, Level::Immediate)),
    (b"wr", Verb::Declare(Access::Wr, Level::Immediate)),
    (b"cm", Verb::Declare(Access::Cm, Level::Immediate)),
    (b"dfrd", Verb::Declare(Access::Rd, Level::Deferred)),
    (b"dfwr", Verb::Declare(Access::Wr, Level::Deferred)),
    (b"dfcm", Verb::Declare(Access::Cm, Level::Deferred)),
    (b"nord", Verb::Declare(Access::Rd, Level::Absent)),
    (b"nowr", Verb::Declare(Access::Wr, Level::Absent)),
    (b"nocm", Verb::Declare(Access::Cm, Level::Absent)),
];

// What stands beside a word in a table. Always in its caller's body, where the table is a constant, and so are the words
// that it compares and their lengths.
#[inline(always)]
pub(crate) fn find<T: Copy>(table: &[(&[u8], T)], word: &[u8]) -> Option<T>
    ensures { result ≡ Lines.find (Lines.entries table.now) word.now }
{
    for (name, value) in table {
        if word == *name {
            return Some(*value);
        }
    }
    None
}

// What the word at a place names in a table, or its fault.
pub(crate) fn named<T: Copy>(token: Token<'_>, table: &[(&[u8], T)]) -> Result<T, WordFault>
    ensures { result ≡ read_by (Lines.find (Lines.entries table.now)) (seen token.entry) }
{
    token.read(|word| find(table, word))
}
