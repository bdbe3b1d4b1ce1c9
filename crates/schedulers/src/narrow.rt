// The scheduler that shows another one only the front of the list.
ghost use Rattle.std.specs.Prelude.{◌≡◌, ◌≤◌, take};
ghost use Rattle.schedulers.specs.Schedulers.{narrow, fit_width};
ghost use Rattle.schedulers.specs.Fronts.{narrow_inside};

use crate::scheduler::Scheduler;

// The greatest width.
const MOST: usize = 64;

// Offers the first `width` of the list to the scheduler below.
#[derive(Debug, Drop)]
pub struct Narrow<S> {
    below: S,
    width: usize,
    ghost some: { 1 ≤ width },
    ghost few: { width ≤ 64 },
}

impl<S> Narrow<S> {
    // A width of 0 is made 1, and one above 64 is made 64.
    pub fn new(below: S, width: usize) -> Narrow<S>
        ensures held { result.below ≡ below }
        ensures fit { result.width ≡ fit_width width }
    {
        Narrow {
            below,
            width: width.clamp(1, MOST),
        }
    }
}

impl<S: Scheduler> Scheduler for Narrow<S> {
    ghost choice = { λ s. narrow s.width (S.choice s.below) };

    ghost next = { λ s xs t. (t.width ≡ s.width) × S.next s.below (take s.width xs) t.below };

    ghost inside = { λ s x xs. narrow_inside (S.choice s.below) s.width x xs (S.inside s.below) s.some };

    fn pick(&mut self, offer: &[u8]) -> Option<usize> {
        self.below.pick(&offer[..self.width.min(offer.len())])
    }
}
