// The objects' queues: what a task's change makes of them, and which tasks are clear in them.
ghost use Rattle.std.specs.Prelude.{◌≡◌, ℕ, ◌<◌, false, ◌&&◌, [], length, vec_len, slice_index_or};
ghost use Rattle.working.specs.Tasks.{nothing};
ghost use Rattle.lines.specs.Stored.{queues_of};
ghost use Rattle.lines.specs.Clears.{at_first, clear_from, clear_in};
ghost use Rattle.lines.specs.Changes.{entered, redeclared, left};

use crate::clear::{Clear, declares};
use crate::numbered::{put_before, revise, take_out};
use crate::queue::Queue;
use runs::Entry;
use working::Declared;

impl Queue {
    fn enter(&mut self, maker: u8, child: u8, d: Declared)
        requires { vec_len self.old.entries < 64 }
        ensures { self.new.entries.items ≡ entered maker child d self.old.entries.items }
    {
        if declares(d) {
            let e = Entry {
                number: child,
                declared: d,
            };
            put_before(&mut self.entries, maker, e);
        }
    }

    fn redeclare(&mut self, n: u8, d: Declared)
        ensures { self.new.entries.items ≡ redeclared n d self.old.entries.items }
    {
        if declares(d) {
            let e = Entry {
                number: n,
                declared: d,
            };
            revise(&mut self.entries, n, e);
        } else {
            take_out(&mut self.entries, n);
        }
    }

    fn leave(&mut self, n: u8)
        ensures { self.new.entries.items ≡ left n self.old.entries.items }
    {
        take_out(&mut self.entries, n);
    }
}

// A task that is not clear in this queue is not clear.
fn pass(entries: &[Entry], clear: &mut [bool; 256])
    ensures { (n : ℕ) → n < 256 → slice_index_or clear.new n false ≡ (clear_from n at_first entries.now && slice_index_or clear.old n false) }
{
    let mut so_far = Clear::at_first();
    for e in entries {
        let i = e.number as usize;
        clear[i] &= so_far.lets(e.declared);
        so_far = so_far.past(e.declared);
    }
}

// Each task's flag, by one pass over each queue.
pub(crate) fn refresh(queues: &Vec<Queue>, clear: &mut [bool; 256])
    ensures { (n : ℕ) → n < 256 → slice_index_or clear.new n false ≡ clear_in (queues_of queues.now.items) n }
{
    *clear = [true; 256];
    for queue in queues {
        pass(queue.entries.as_slice(), clear);
    }
}

// A loop for each change: one over a closure would say which references the closure was called with, and each caller
// would have to show what that makes of the queues. By `enumerate`: behind a `zip`, a proof doesn't know what is written.
// That as many queues are left ties the queues before to those after, so it is a clause and in no type.

#[tactic(auto, using(crate::proofs::Rounds::changed_none))]
pub(crate) fn enter_all(queues: &mut Vec<Queue>, maker: u8, child: u8, ds: &[Declared])
    requires sized { length ds.now ≡ vec_len queues.old }
    requires room { (o : ℕ) → length (slice_index_or (queues_of queues.old.items) o []) < 64 }
    ensures items { (o : ℕ) → slice_index_or (queues_of queues.new.items) o [] ≡ entered maker child (slice_index_or ds.now o nothing) (slice_index_or (queues_of queues.old.items) o []) }
    ensures len { vec_len queues.new ≡ vec_len queues.old }
{
    for (o, queue) in queues.iter_mut().enumerate() {
        queue.enter(maker, child, ds[o]);
    }
}

#[tactic(auto, using(crate::proofs::Rounds::changed_none))]
pub(crate) fn redeclare_all(queues: &mut Vec<Queue>, n: u8, ds: &[Declared])
    requires sized { length ds.now ≡ vec_len queues.old }
    ensures items { (o : ℕ) → slice_index_or (queues_of queues.new.items) o [] ≡ redeclared n (slice_index_or ds.now o nothing) (slice_index_or (queues_of queues.old.items) o []) }
    ensures len { vec_len queues.new ≡ vec_len queues.old }
{
    for (o, queue) in queues.iter_mut().enumerate() {
        queue.redeclare(n, ds[o]);
    }
}

#[tactic(auto, using(crate::proofs::Rounds::changed_none))]
pub(crate) fn leave_all(queues: &mut Vec<Queue>, n: u8)
    ensures items { (o : ℕ) → slice_index_or (queues_of queues.new.items) o [] ≡ left n (slice_index_or (queues_of queues.old.items) o []) }
    ensures len { vec_len queues.new ≡ vec_len queues.old }
{
    for queue in queues.iter_mut() {
        queue.leave(n);
    }
}
