// A refusal's number, line and word.
ghost use Rattle.std.specs.Prelude.{◌≡◌};
ghost use Rattle.loading.specs.Refusals.{tell, line_told, told};

use crate::refusal::{LineFault, LoadRefusal, Told};
use words::WordFault;

impl Told {
    // A fault of a whole line, or of the whole text at line 0.
    fn of_line(number: u32, line: u32) -> Told
        ensures { result ≡ tell number line 0 }
    {
        Told {
            number,
            line,
            word: 0,
        }
    }
}

impl From<LineFault> for Told {
    ghost from_gives = { λ f t. t ≡ line_told f };

    fn from(fault: LineFault) -> Told {
        match fault {
            LineFault::Word(
                WordFault::Unfit(at) | WordFault::Missing(at) | WordFault::Surplus(at),
            ) => Told {
                number: 2,
                line: at.line,
                word: at.word,
            },
            LineFault::Missing { line }
            | LineFault::Unended { line }
            | LineFault::Surplus { line } => Told::of_line(2, line),
            LineFault::Misplaced { line }
            | LineFault::TooDeep { line }
            | LineFault::Open { line } => Told::of_line(3, line),
            LineFault::NoObject { line } => Told::of_line(4, line),
        }
    }
}

impl LoadRefusal {
    // The refusal's number, line and word; nothing for want of memory.
    pub fn told(self) -> Option<Told>
        ensures { result ≡ told self }
    {
        match self {
            LoadRefusal::TooLong => Some(Told::of_line(1, 0)),
            LoadRefusal::Line(fault) => Some(Told::from(fault)),
            LoadRefusal::TooManyTasks => Some(Told::of_line(5, 0)),
            LoadRefusal::TooManySteps => Some(Told::of_line(6, 0)),
            LoadRefusal::Memory => None,
        }
    }
}
