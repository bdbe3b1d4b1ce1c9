// Reads the lines before the lines section.
ghost use Rattle.std.specs.Prelude.{◌≡◌, ◌+◌, [], Ok, Result, IfOk, vec_len, OnOk};
ghost use Rattle.words.specs.declared.fault.WordFault.{WordFault};
ghost use Rattle.words.specs.declared.tokens.Token.{Token};
ghost use Rattle.words.specs.Tokens.{Seen, seen};
ghost use Rattle.loading.specs.Texts.{rest_of, text_number};
ghost use Rattle.loading.specs.Headers as Headers;
ghost use Rattle.loading.specs.Headers.{literal_form, literals_after, worded_form, HeaderLine, HeaderIs, literals_of, header_of};

use crate::cursor::Cursor;
use crate::head::Header;
use crate::refusal::{LineFault, LoadRefusal};
use crate::tables::{KINDS, ORDERS, named};
use std::alloc::Global;
use words::{Token, WordFault, tokenize};

// The next line: a fixed word, one word more as `read` reads it, and no other.
fn worded_line<T: Drop, F: FnOnce(Token<'_>) -> Result<T, WordFault>>(
    lines: &mut Cursor<'_>,
    word: &[u8],
    read: F,
) -> Result<T, LineFault>
    requires { F.IsAlwaysCallable read }
    ensures form { (f : Seen → Result T WordFault) → ((t : Token) (r : Result T WordFault) → F.post read t r → r ≡ f (seen t)) → HeaderLine (worded_form word.now f) result lines.old lines.new }
    ensures read { IfOk result (λ x. (t : Token) × F.post read t (Ok x)) }
{
    let line = lines.number();
    let words = tokenize(lines.take_line()?, line);
    words.first.exactly(word)?;
    let said = read(words.second)?;
    words.third.nothing()?;
    Ok(said)
}

#[tactic(auto, unfolding(crate::specs::Headers::literal_form))]
fn literal_line(lines: &mut Cursor<'_>) -> Result<i16, LineFault>
    ensures { HeaderLine literal_form result lines.old lines.new }
{
    let line = lines.number();
    let words = tokenize(lines.take_line()?, line);
    let literal = words.first.literal()?;
    words.second.nothing()?;
    Ok(literal)
}

// So many literals, one a line.
fn read_literals(heap: Global, lines: &mut Cursor<'_>, count: u16) -> Result<Vec<i16>, LoadRefusal>
    ensures value { HeaderIs literals_of result (literals_after count [] (rest_of lines.old) (text_number lines.old)) lines.new }
    ensures count { IfOk result (λ v. vec_len v ≡ count) }
    ensures number { OnOk result (text_number lines.new ≡ text_number lines.old + count) }
{
    let mut literals = Vec::new(heap);
    for _i in 0..count {
        let literal = literal_line(lines)?;
        literals.push(literal)?;
    }
    Ok(literals)
}

// Reads the header of a text, from its first line.
pub(crate) fn read_header(heap: Global, lines: &mut Cursor<'_>) -> Result<Header, LoadRefusal>
    requires { text_number lines.old ≡ 1 }
    ensures value { HeaderIs header_of result (Headers.read_header (rest_of lines.old)) lines.new }
    ensures number { IfOk result (λ h. text_number lines.new ≡ 6 + vec_len h.words) }
{
    worded_line(lines, b"bench", |word| word.exactly(b"2"))?;
    let kind = worded_line(lines, b"kind", |word| named(word, &KINDS))?;
    let order = worded_line(lines, b"order", |word| named(word, &ORDERS))?;
    let objects = worded_line(lines, b"objects", |word| word.number(1, 16))?;
    let words = read_literals(heap, lines, objects)?;
    let count = worded_line(lines, b"lines", |word| word.number(0, 256))?;
    Ok(Header {
        kind,
        order,
        words,
        lines: count,
    })
}
