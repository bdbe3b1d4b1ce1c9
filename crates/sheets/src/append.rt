// Appends the parts of a sheet to a vector of bytes. None allocates but by the vector's own growth.
//
// By appends and not by `write!`, which leaves the proof open: no clause of it says that it succeeds where there is room.
#![tactic(auto, using(crate::proofs::Turns::appends))]

ghost use Rattle.std.specs.Prelude.{[], ◌∷◌, ◌++◌};
ghost use Rattle.sheets.specs.Appends.{Appends};
ghost use Rattle.sheets.specs.Sheets.{line, numbers, place_text, ranks_text};

use itoa::Buffer;
use kinds::ValueKind;
use std::alloc::AllocError;

pub(crate) fn text(out: &mut Vec<u8>, text: &str) -> Result<(), AllocError>
    ensures { Appends out.old out.new text.now result }
{
    out.extend_from_slice(text.as_bytes())
}

// A line of a word and a text.
pub(crate) fn line(out: &mut Vec<u8>, word: &str, rest: &str) -> Result<(), AllocError>
    ensures { Appends out.old out.new (word.now ++ (32 ∷ (rest.now ++ (10 ∷ [])))) result }
{
    text(out, word)?;
    text(out, " ")?;
    text(out, rest)?;
    text(out, "\n")
}

// A point and a number for each rank of a task's place.
pub(crate) fn ranks(out: &mut Vec<u8>, place: &[u8]) -> Result<(), AllocError>
    ensures { Appends out.old out.new (ranks_text place.now) result }
{
    let mut digits = Buffer::new();
    for rank in place {
        text(out, ".")?;
        text(out, digits.format(*rank))?;
    }
    Ok(())
}

// The number of each word, one a line. A loop of its own beside `ranks`: the end of a line stands behind a word, and the
// point before a rank.
pub(crate) fn numbers<K: ValueKind>(
    out: &mut Vec<u8>,
    kind: &K,
    words: &[u32],
) -> Result<(), AllocError>
    ensures { Appends out.old out.new (numbers (K.ValueKind.kind kind.now) words.now) result }
{
    let mut digits = Buffer::new();
    for word in words {
        text(out, digits.format(kind.number(*word)))?;
        text(out, "\n")?;
    }
    Ok(())
}

// The line of a task's place.
pub(crate) fn task(out: &mut Vec<u8>, place: &[u8]) -> Result<(), AllocError>
    ensures { Appends out.old out.new (line "task" (place_text place.now) []) result }
{
    text(out, "task main")?;
    ranks(out, place)?;
    text(out, "\n")
}
