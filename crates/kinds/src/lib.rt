// Value kinds: what the words of a card mean.
//
// `ValueKind` is the interface. An implementer gives the meaning of five functions, `kind`, and shows
// that it is lawful: joins of words may be exchanged, and different words have different numbers.
// `Tally` is two's complement, `Flags` a set of 32 bits.
#![tactic(auto)]

ghost use Rattle.std.specs.Prelude.{◌≡◌};
ghost use Rattle.kinds.specs.Kinds.{Kind, Lawful};

mod flags;
mod tally;

pub use flags::Flags;
pub use tally::Tally;

pub trait ValueKind: Sized {
    ghost kind: { Self → Kind };

    // The word of a literal. `Tally` and `Flags` agree on it, but it is no default: each kind means its own.
    fn literal(&self, z: i16) -> u32
        ensures { result ≡ (kind self.now).literal z };

    fn add(&self, a: u32, b: u32) -> u32
        ensures { result ≡ (kind self.now).add a b };

    fn join(&self, a: u32, b: u32) -> u32
        ensures { result ≡ (kind self.now).join a b };

    fn less(&self, a: u32, b: u32) -> bool
        ensures { result ≡ (kind self.now).less a b };

    // The number that a sheet prints for a word.
    fn number(&self, a: u32) -> i64
        ensures { result ≡ (kind self.now).number a };

    ghost lawful: { (k : Self) → Lawful (kind k) };
}
