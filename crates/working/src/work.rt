// What a task has still to do.
ghost use Rattle.std.specs.Prelude.{◌≡◌, ◌+◌, ◌≤◌, [], vec_len, vec_capacity};
ghost use Rattle.cards.specs.Bounds.{task_bound, depth};
ghost use Rattle.cards.specs.Trees.{block_of};
ghost use Rattle.working.specs.Frames.{left_in, deepest};

use crate::frame::Frame;
use crate::place::Place;
use cards::Block;

// A task's place, how many children it has made, the block that it works, and the frames below, the last on top.
// There is room for as many frames as a card can nest.
#[derive(Drop)]
pub struct Work<'c> {
    pub(crate) place: Place,
    pub(crate) children: u8,
    pub(crate) at: &'c Block,
    pub(crate) frames: Vec<Frame<'c>>,
    ghost fits: { place.depth + (vec_len frames + depth (block_of at.now)) ≤ 8 },
    ghost frames_fit: { deepest place.depth frames.items ≤ 8 },
    ghost room: { 8 ≤ vec_capacity frames },
    ghost few: { children + task_bound (left_in (block_of at.now) frames.items) ≤ 63 },
}

// Room for the frames of a task that is not begun.
#[derive(Drop)]
pub struct Frames<'c> {
    pub(crate) frames: Vec<Frame<'c>>,
    ghost empty: { frames.items ≡ [] },
    ghost none: { vec_len frames ≡ 0 },
    ghost room: { 8 ≤ vec_capacity frames },
}

// The place and the block of a task that is not begun.
#[derive(Clone, Copy)]
pub struct Fresh<'c> {
    pub place: Place,
    pub body: &'c Block,
    ghost fits: { place.depth + depth (block_of body.now) ≤ 8 },
    ghost few: { task_bound (block_of body.now) ≤ 63 },
}
