// The interface of schedulers.
ghost use Rattle.std.specs.Prelude.{◌≡◌, ℕ, ◌<◌, List, ◌∷◌, length};
ghost use Rattle.schedulers.specs.Schedulers.{picked};

// An implementer says in two ghost members what `pick` does, and owes one law.
//
// `choice` is the place that each state chooses from each list of task numbers. The law `inside` asks
// only that a choice from a list that is not empty is a place in it. A list may hold any numbers, in
// any order, and one number twice.
//
// `next` relates a state and a list to the states that may follow a pick. Nothing is asked of it, so
// `λ _ _ _. Unit {0}`, which says nothing, will do.
pub trait Scheduler {
    ghost choice: { Self → List ℕ → ℕ };

    ghost next: { Self → List ℕ → Self → Type 0 };

    // The chosen place, or `None` if nothing is offered.
    fn pick(&mut self, offer: &[u8]) -> Option<usize>
        ensures answer { result ≡ picked (choice self.old) offer.now }
        ensures state { next self.old offer.now self.new };

    ghost inside: { (s : Self) (x : ℕ) (xs : List ℕ) → choice s (x ∷ xs) < length (x ∷ xs) };
}
