// The faults that end a task's work.
ghost use Rattle.std.specs.Prelude.{◌≡◌};
ghost use Rattle.working.specs.declared.fault.FaultKind.TheVariants.{Declare};

use crate::place::Place;

#[derive(Clone, Copy, Debug, PartialEq, Eq)]
pub enum FaultKind {
    Read,
    Write,
    Join,
    Declare,
}

// A fault and its line.
#[derive(Clone, Copy, Debug, PartialEq, Eq)]
pub struct Fault {
    pub kind: FaultKind,
    pub line: u32,
}

// A fault, and the place of the task whose work it ends.
#[derive(Clone, Copy)]
pub struct TaskFault {
    pub fault: Fault,
    pub place: Place,
}

// The line of a section that declares what may not be declared.
#[derive(Clone, Copy)]
pub(crate) struct Refused {
    pub line: u32,
}

impl From<Refused> for Fault {
    ghost from_gives = { λ r f. f ≡ record { kind = Declare; line = r.line } };

    fn from(r: Refused) -> Fault {
        Fault {
            kind: FaultKind::Declare,
            line: r.line,
        }
    }
}
