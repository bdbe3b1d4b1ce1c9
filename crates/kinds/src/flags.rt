// Words as sets of 32 bits.
ghost use Rattle.kinds.specs.Values.{flags};
ghost use Rattle.kinds.specs.Laws.{flags_lawful};

use crate::ValueKind;

// Words as sets of 32 bits; joining unites.
#[derive(Clone, Copy, Debug, PartialEq, Eq)]
pub struct Flags;

impl ValueKind for Flags {
    ghost kind = { λ _. flags };

    ghost lawful = { λ k. flags_lawful };

    fn literal(&self, z: i16) -> u32 {
        i32::from(z).cast_unsigned()
    }

    fn add(&self, a: u32, b: u32) -> u32 {
        a ^ b
    }

    fn join(&self, a: u32, b: u32) -> u32 {
        a | b
    }

    fn less(&self, a: u32, b: u32) -> bool {
        a & b == a && a != b
    }

    fn number(&self, a: u32) -> i64 {
        i64::from(a)
    }
}
