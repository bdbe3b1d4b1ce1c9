// A card within its limits.
ghost use Rattle.std.specs.Prelude.{◌≡◌, ◌+◌, ◌≤◌, true, vec_len};
ghost use Rattle.cards.specs.Bounds.{step_bound, task_bound, depth, line_count, object_bound};
ghost use Rattle.cards.specs.Literals.{all_literals, block_literals};
ghost use Rattle.cards.specs.Trees.{block_of};

use crate::lines::{KindName, OrderName};
use crate::tree::Block;

// No card breaks a limit: 1 to 16 objects, at most 256 lines, blocks at most 8 deep below main's, each `point` to
// an object that there is, a task bound of at most 64 and a step bound of at most 1,000,000. Names, literals and
// counts are in range by their own types.
#[derive(Drop)]
pub struct Card {
    pub(crate) kind: KindName,
    pub(crate) order: OrderName,
    pub(crate) words: Vec<i16>,
    pub(crate) body: Block,
    ghost literals: { all_literals words.items ≡ true },
    ghost body_literals: { block_literals (block_of body) ≡ true },
    ghost an_object: { 1 ≤ vec_len words },
    ghost objects: { vec_len words ≤ 16 },
    ghost lines: { line_count (block_of body) ≤ 256 },
    ghost deep: { depth (block_of body) ≤ 8 },
    ghost pointed: { object_bound (block_of body) ≤ vec_len words },
    ghost tasks: { task_bound (block_of body) + 1 ≤ 64 },
    ghost steps: { step_bound (block_of body) + 1 ≤ 1_000_000 },
}
