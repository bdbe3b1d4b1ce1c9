// An object's queue.
ghost use Rattle.std.specs.Prelude.{◌≤◌, vec_capacity};

use runs::Entry;

// There is room for every task.
#[derive(Drop)]
pub(crate) struct Queue {
    pub(crate) entries: Vec<Entry>,
    ghost room: { 64 ≤ vec_capacity entries },
}
