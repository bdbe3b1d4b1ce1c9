// Words in two's complement.
ghost use Rattle.kinds.specs.Values.{tally};
ghost use Rattle.kinds.specs.Laws.{tally_lawful};

use crate::ValueKind;

// Words in two's complement; joining adds.
#[derive(Clone, Copy, Debug, PartialEq, Eq)]
pub struct Tally;

impl ValueKind for Tally {
    ghost kind = { λ _. tally };

    ghost lawful = { λ k. tally_lawful };

    fn literal(&self, z: i16) -> u32 {
        i32::from(z).cast_unsigned()
    }

    fn add(&self, a: u32, b: u32) -> u32 {
        a.wrapping_add(b)
    }

    fn join(&self, a: u32, b: u32) -> u32 {
        self.add(a, b)
    }

    fn less(&self, a: u32, b: u32) -> bool {
        a.cast_signed() < b.cast_signed()
    }

    fn number(&self, a: u32) -> i64 {
        i64::from(a.cast_signed())
    }
}
