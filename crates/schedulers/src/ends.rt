// The schedulers that choose an end of the list. They have one state.
// Two impls: what differs is the choice itself, so one type for both would take its code and its definition as parameters.
ghost use Rattle.std.specs.Prelude.{◌≡◌};
ghost use Rattle.schedulers.specs.Schedulers.{first, last};
ghost use Rattle.std.proofs.Common.{rules};

use crate::scheduler::Scheduler;

#[derive(Clone, Copy, Debug, PartialEq, Eq)]
pub struct First;

impl Scheduler for First {
    ghost choice = { λ _. first };

    ghost next = { λ s _ t. t ≡ s };

    ghost inside = { Prim.search rules };

    fn pick(&mut self, offer: &[u8]) -> Option<usize> {
        if offer.is_empty() { None } else { Some(0) }
    }
}

#[derive(Clone, Copy, Debug, PartialEq, Eq)]
pub struct Last;

impl Scheduler for Last {
    ghost choice = { λ _. last };

    ghost next = { λ s _ t. t ≡ s };

    ghost inside = { Prim.search rules };

    fn pick(&mut self, offer: &[u8]) -> Option<usize> {
        offer.len().checked_sub(1)
    }
}
