// Makes sections line by line.
ghost use Rattle.std.specs.Prelude.{◌≡◌, [], ◌∷◌, ◌++◌, is_ok, if◌then◌else◌};

use crate::lines::{Access, Declaration, Level};
use crate::names::Pointer;
use crate::section::Section;
use std::alloc::{AllocError, Global};

impl Section {
    // A section with no lines.
    pub fn new(heap: Global) -> Section
        ensures { result.lines.items ≡ [] }
    {
        Section {
            lines: Vec::new(heap),
        }
    }

    // One declaration more, at the end. Without memory for it the section stays as it is.
    pub fn push(
        &mut self,
        line: u32,
        access: Access,
        level: Level,
        pointer: Pointer,
    ) -> Result<(), AllocError>
        ensures { self.new.lines.items ≡ (if is_ok result then (self.old.lines.items ++ record { line = line; access = access; level = level; pointer = pointer.n } ∷ []) else self.old.lines.items) }
    {
        self.lines.push(Declaration {
            line,
            access,
            level,
            pointer: pointer.n,
        })?;
        Ok(())
    }
}
