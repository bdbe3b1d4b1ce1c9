// The line of a bench's unfinished tasks, with the objects' queues.
ghost use Rattle.std.specs.Prelude.{◌≡◌, ℕ, ◌<◌, ◌≤◌, true, false, [], length, vec_len, vec_capacity, slice_index_or};
ghost use Rattle.runs.specs.Queues.{queue};
ghost use Rattle.lines.specs.States.{is_finished, is_out};
ghost use Rattle.lines.specs.Rows.{itself, absent, apart, below};
ghost use Rattle.lines.specs.Stored.{queues_of, state_at, stored_line};
ghost use Rattle.lines.specs.Same.{same_entries};
ghost use Rattle.lines.specs.Clears.{clear_in};

use crate::queue::Queue;
use crate::state::State;

// The numbers of the unfinished tasks in line order, a queue for each object, each number's state, whether its
// immediate declarations are clear, and how many tasks were made. There is room for 64 tasks.
//
// States and flags are two arrays: a change of one state leaves the flags, and `refresh` writes flags alone. Each has
// fixed memory for all numbers of a byte, so that no index has to be tested.
//
// A task stands once in the line while it is not finished, the stored queues are those read off the line, the flags
// are those of the queues, and a turn that is out is of a task that is clear.
#[derive(Drop)]
pub struct Line {
    pub(crate) order: Vec<u8>,
    pub(crate) queues: Vec<Queue>,
    pub(crate) states: [State; 256],
    pub(crate) clear: [bool; 256],
    pub(crate) made: u8,
    ghost few: { made ≤ 64 },
    ghost short: { vec_len order ≤ made },
    ghost room: { 64 ≤ vec_capacity order },
    ghost objects: { vec_len queues ≤ 16 },
    ghost numbers: { length states ≡ 256 },
    ghost known: { below made order.items ≡ true },
    ghost once: { apart itself order.items ≡ true },
    ghost unfinished: { (n : ℕ) → absent itself n order.items ≡ is_finished (state_at states n) },
    ghost stored: { (o : ℕ) → same_entries (slice_index_or (queues_of queues.items) o []) (queue o (stored_line (queues_of queues.items) states order.items)) ≡ true },
    ghost turns: { (n : ℕ) → is_out (state_at states n) ≡ true → clear_in (queues_of queues.items) n ≡ true },
    ghost flags: { (n : ℕ) → n < 256 → slice_index_or clear n false ≡ clear_in (queues_of queues.items) n },
}
