// How far code goes, each number up to one past its limit.
ghost use Rattle.std.specs.Prelude.{◌≤◌};

#[derive(Clone, Copy)]
pub struct Extent {
    pub steps: u32,
    pub tasks: u32,
    pub depth: u32,
    pub lines: u32,
    pub objects: u32,
    ghost few_steps: { steps ≤ 1_000_001 },
    ghost few_tasks: { tasks ≤ 65 },
    ghost shallow: { depth ≤ 9 },
    ghost few_lines: { lines ≤ 257 },
    ghost few_objects: { objects ≤ 257 },
}
