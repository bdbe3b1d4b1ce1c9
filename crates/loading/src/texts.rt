// Takes the lines of a text one by one.
ghost use Rattle.std.specs.Prelude.{◌≡◌, ◌≤◌, length};
ghost use Rattle.loading.specs.Texts.{text_number, Takes, Nexts};
ghost use Rattle.loading.specs.Loading.{Begins};

use crate::cursor::Cursor;
use crate::head::Header;
use crate::line::Line;
use crate::read_line::read_line;
use crate::refusal::LineFault;
use words::cut;

// A line of the lines section, with its number in the text.
#[derive(Clone, Copy)]
pub struct Numbered {
    pub line: Line,
    pub number: u32,
}

impl<'a> Cursor<'a> {
    // The number of the next line in the text.
    pub(crate) fn number(&self) -> u32
        ensures { result ≡ text_number self.now }
    {
        self.header + self.line
    }

    // The next line's bytes.
    #[tactic(auto, using(crate::proofs::Sections::after_shorter), unfolding(crate::specs::Texts::text_line))]
    pub(crate) fn take_line(&mut self) -> Result<&'a [u8], LineFault>
        ensures { Takes result self.old self.new }
    {
        let line = self.number();
        if self.rest.is_empty() {
            return Err(LineFault::Missing { line });
        }
        let Some((bytes, after)) = cut(self.rest, b'\n') else {
            return Err(LineFault::Unended { line });
        };
        self.rest = after;
        self.line += 1;
        Ok(bytes)
    }

    // What the next line of the lines section says, or nothing after the last.
    #[tactic(auto, using(crate::proofs::Sections::section_none), unfolding(crate::specs::Texts::upcoming))]
    pub(crate) fn next(&mut self) -> Result<Option<Numbered>, LineFault>
        ensures { Nexts result self.old self.new }
    {
        let number = self.number();
        if self.left == 0 {
            if self.rest.is_empty() {
                return Ok(None);
            }
            return Err(LineFault::Surplus { line: number });
        }
        let bytes = self.take_line()?;
        self.left -= 1;
        let line = read_line(bytes, number)?;
        Ok(Some(Numbered { line, number }))
    }

    // The cursor at the start of the lines section, after the header's lines.
    pub(crate) fn begin_section(self, header: &Header) -> Cursor<'a>
        requires { 1 ≤ text_number self }
        ensures { Begins self.entry header.now.lines (length header.now.words.items) result }
    {
        Cursor {
            rest: self.rest,
            header: self.number() - 1,
            line: 1,
            left: u32::from(header.lines),
            objects: header.words.len() as u8,
        }
    }
}
