// Where a task stands among its makers.
ghost use Rattle.std.specs.Prelude.{◌≤◌};

// The ranks of a task's makers and its own, from main down: main has none, the k-th child adds k. The first `depth` of
// them count. Fixed memory: a place is copied into faults and children.
#[derive(Clone, Copy)]
pub struct Place {
    pub ranks: [u8; 8],
    pub depth: u8,
    ghost short: { depth ≤ 8 },
}
