// What is offered, and what stands in a queue.
ghost use Rattle.std.specs.Prelude.{◌≡◌, ℕ, ◌≤◌, length, take, filter, slice_get};
ghost use Rattle.working.specs.Tasks.{Task};
ghost use Rattle.runs.specs.Queues as Queues;
ghost use Rattle.runs.specs.Ready.{offered};
ghost use Rattle.lines.specs.Offers.{offers};
ghost use Rattle.lines.specs.Lines.{line_of, Tells};

use crate::line::Line;
use crate::state::State;
use runs::Entry;

// The numbers of the tasks that wait and are clear, and how many they are.
fn fill(order: &[u8], states: &[State; 256], clear: &[bool; 256], into: &mut [u8; 64]) -> usize
    requires { length order.now ≤ 64 }
    ensures items { take result into.new ≡ filter (offers states.now clear.now) order.now }
    ensures few { result ≤ 64 }
{
    let mut len = 0;
    for n in order {
        // Written before it is counted: a branch for each task was slower where some are offered and some are not.
        into[len] = *n;
        len += (states[*n as usize].is_waiting() & clear[*n as usize]) as usize;
    }
    len
}

impl Line {
    // The numbers of the ready tasks that have no turn out, in line order, and how many they are. They stand in memory
    // of the caller's, which keeps them after the call: a slice of it would end with its loan.
    pub fn offer(&self, into: &mut [u8; 64]) -> usize
        ensures items { (t : ℕ → Task) → Tells self.now t → take result into.new ≡ offered (line_of self.now t) (line_of self.now t) }
        ensures few { result ≤ 64 }
    {
        fill(&self.order, &self.states, &self.clear, into)
    }

    // The same numbers as a slice of the row. Fixed memory: no call of an open bench asks for any.
    pub fn ready<'a>(&self, row: &'a mut [u8; 64]) -> &'a [u8]
        ensures items { (t : ℕ → Task) → Tells self.now t → result.now ≡ offered (line_of self.now t) (line_of self.now t) }
        ensures few { length result.now ≤ 64 }
    {
        let len = self.offer(row);
        &row[..len]
    }

    // The entry of an object at a place.
    pub fn look(&self, object: usize, place: usize) -> Option<Entry>
        ensures { (t : ℕ → Task) → Tells self.now t → result ≡ slice_get (Queues.queue object (line_of self.now t)) place }
    {
        let queue = self.queues.get(object)?;
        queue.entries.get(place).copied()
    }
}
