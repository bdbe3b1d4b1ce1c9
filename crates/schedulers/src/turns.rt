// The scheduler that goes round the task numbers.
ghost use Rattle.std.specs.Prelude.{◌≡◌, ◌+◌, ◌-◌, ◌%◌, ◌<◌, ◌≤◌, length, unwrap_or};
ghost use Rattle.schedulers.specs.Schedulers.{place_of, met, turns, turns_next};
ghost use Rattle.schedulers.specs.Rounds.{turns_inside};

use crate::scheduler::Scheduler;

// After the number below this comes 0.
const ROUND: u8 = 64;

// Chooses the first offered number met in counting up from `k`, and then counts from one further.
#[derive(Debug, Drop)]
pub struct Turns {
    k: u8,
    ghost small: { k < 64 },
}

impl Turns {
    pub fn new() -> Turns
        ensures { result.k ≡ 0 }
    {
        Turns { k: 0 }
    }

    // The earliest place of the offered number that counting up from `k` meets first.
    fn meet(&self, offer: &[u8]) -> Option<usize>
        ensures { unwrap_or result 0 ≡ turns self.now.k offer.now }
    {
        let ahead = nearest(offer, self.k);
        if ahead == ROUND {
            return None;
        }
        let number = (self.k + ahead) % ROUND;
        offer.iter().position(|n| *n == number)
    }
}

// How far ahead of `k` the nearest offered number is; `ROUND` if there is none below it.
//
// `ROUND` for none and no Option: it is where the minimum begins, and only `meet` sees it.
// By a loop: over the offers of 62 tasks, `filter` and `min_by_key` made whole cards take twice the time.
fn nearest(offer: &[u8], k: u8) -> u8
    requires { k < 64 }
    ensures within { result ≤ 64 }
    ensures skipped { turns k offer.now ≡ met (64 - result) ((k + result) % 64) offer.now }
    ensures offered { result < 64 → place_of ((k + result) % 64) offer.now < length offer.now }
{
    let mut least = ROUND;
    for n in offer {
        let ahead = if *n < ROUND {
            n.wrapping_sub(k) % ROUND
        } else {
            ROUND
        };
        least = least.min(ahead);
    }
    least
}

impl Scheduler for Turns {
    ghost choice = { λ s. turns s.k };

    ghost next = { λ s xs t. t.k ≡ turns_next s.k xs };

    ghost inside = { λ s. turns_inside s.k };

    fn pick(&mut self, offer: &[u8]) -> Option<usize> {
        if offer.is_empty() {
            return None;
        }
        let place = self.meet(offer).unwrap_or(0);
        self.k = (self.k + 1) % ROUND;
        Some(place)
    }
}
