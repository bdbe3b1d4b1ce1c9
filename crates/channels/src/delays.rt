// Delays that look like chance, and are the same for the same seed.
ghost use Rattle.std.specs.Prelude.{◌≤◌};

// The most ticks that an answer takes.
const LONGEST: u32 = 6;

// A xorshift generator of 32 bits.
#[derive(Drop)]
pub struct Delays {
    state: u32,
}

impl Delays {
    // From 0 the generator would not get away, so 1 stands for it.
    pub fn new(seed: u32) -> Delays {
        Delays { state: seed.max(1) }
    }

    // The next delay in ticks.
    pub fn draw(&mut self) -> u32
        ensures some { 1 ≤ result }
        ensures few { result ≤ 6 }
    {
        self.state ^= self.state << 13;
        self.state ^= self.state >> 17;
        self.state ^= self.state << 5;
        1 + self.state % LONGEST
    }
}
