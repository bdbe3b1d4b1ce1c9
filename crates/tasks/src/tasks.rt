// The tasks of a run.
ghost use Rattle.std.specs.Prelude.{◌≡◌, ◌+◌, ◌≤◌, replicate, vec_len, vec_capacity};
ghost use Rattle.tasks.specs.Rooms.{to_make, sizes};

use working::{Frames, Task};

// The objects' words, the tasks by their numbers, and room for the frames of tasks to come.
// No card makes more than 64 tasks, and there is room for as many. Finished tasks stay.
#[derive(Drop)]
pub struct Tasks<'c> {
    pub(crate) store: Vec<u32>,
    pub(crate) tasks: Vec<Task<'c>>,
    pub(crate) spare: Vec<Frames<'c>>,
    ghost objects: { vec_len store ≤ 16 },
    ghost sized: { sizes tasks.items ≡ replicate (vec_len tasks) (vec_len store) },
    ghost few: { vec_len tasks + to_make tasks.items ≤ 64 },
    ghost tasks_room: { 64 ≤ vec_capacity tasks },
    ghost frames_room: { 64 ≤ vec_len tasks + vec_len spare },
}
