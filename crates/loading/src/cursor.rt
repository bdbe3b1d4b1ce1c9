// Where the reading of a text stands.
ghost use Rattle.std.specs.Prelude.{◌+◌, ◌≤◌, length};

// The text still to be read, whose first line is line `line` after `header` lines; in the lines section `left` of
// its lines are still to come, and a `point` names one of `objects` objects. The heap goes beside the cursor, since most
// of its calls ask for no memory.
#[derive(Drop)]
pub struct Cursor<'a> {
    pub(crate) rest: &'a [u8],
    pub(crate) header: u32,
    pub(crate) line: u32,
    pub(crate) left: u32,
    pub(crate) objects: u8,
    ghost short: { header + line + length rest.now ≤ 100_000 },
}
