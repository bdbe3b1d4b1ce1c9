// The names of a task's own words and pointers: two types, so that neither is taken for the other.
ghost use Rattle.std.specs.Prelude.{◌<◌};

// One of the words n0 to n3.
#[derive(Clone, Copy, Debug, PartialEq, Eq)]
pub struct Local {
    pub n: u8,
    ghost small: { n < 4 },
}

// One of the pointers p0 to p3.
#[derive(Clone, Copy, Debug, PartialEq, Eq)]
pub struct Pointer {
    pub n: u8,
    ghost small: { n < 4 },
}
