// Names.
ghost use Rattle.std.specs.Prelude.{◌≡◌};
ghost use Rattle.words.specs.Names.{name, names_of};

use crate::numbers::read_number;
use cards::{Local, Pointer};

// One of a task's words, one of its pointers, or an object.
#[derive(Clone, Copy, Debug, PartialEq, Eq)]
pub enum Name {
    Local(Local),
    Pointer(Pointer),
    Object(u8),
}

// The first letter of a name decides what it names.
pub(crate) fn read_name(s: &[u8]) -> Option<Name>
    ensures { names_of result ≡ name s.now }
{
    let (first, rest) = s.split_first()?;
    match *first as char {
        'n' => Some(Name::Local(Local {
            n: read_number(rest, 3)? as u8,
        })),
        'p' => Some(Name::Pointer(Pointer {
            n: read_number(rest, 3)? as u8,
        })),
        'o' => Some(Name::Object(read_number(rest, 15)? as u8)),
        _ => None,
    }
}
