// Picks by table, and a scheduler from outside the crate's own.
ghost use Rattle.std.specs.Prelude.{◌/◌, length};
ghost use Rattle.std.proofs.Common.{rules};

use crate::*;
use cards::OrderName;
use std::process::Abort;

// Picks from one offer again and again, and holds each place to its row.
fn picks<S: Scheduler>(rt: &impl Abort, s: &mut S, offer: &[u8], places: &[usize]) {
    assert_eq!(rt; s.pick(&[]), None);
    for place in places {
        assert_eq!(rt; s.pick(offer), Some(*place));
    }
}

#[test]
fn ends(rt: HostRuntime) {
    picks(&rt, &mut First, &[9, 7, 200], &[0, 0]);
    picks(&rt, &mut Last, &[9, 7, 200], &[2, 2]);
}

#[test]
fn turns(rt: HostRuntime) {
    picks(
        &rt,
        &mut Turns::new(),
        &[5, 1, 70, 1, 63],
        &[1, 1, 0, 0, 0, 0, 4, 4],
    );
    picks(&rt, &mut Turns::new(), &[3, 0], &[1, 0, 0, 0, 1]);
    picks(&rt, &mut Turns::new(), &[70, 64], &[0, 0]);
}

#[test]
fn widths(rt: HostRuntime) {
    for (width, place) in [(0, 0), (1, 0), (2, 1), (5, 4), (1000, 4)] {
        picks(
            &rt,
            &mut Narrow::new(Last, width),
            &[1, 2, 3, 4, 5],
            &[place],
        );
    }
}

#[test]
fn card_orders(rt: HostRuntime) {
    let offer = [8, 9, 10, 11, 12, 0];
    picks(&rt, &mut CardOrder::from(OrderName::First), &offer, &[0, 0]);
    picks(&rt, &mut CardOrder::from(OrderName::Last), &offer, &[5, 5]);
    picks(&rt, &mut CardOrder::from(OrderName::Turns), &offer, &[5, 0]);
    picks(
        &rt,
        &mut CardOrder::from(OrderName::Narrow),
        &offer,
        &[3, 3],
    );
}

// Chooses the middle of the list, and promises nothing about its states.
#[derive(Drop)]
struct Middle {
    picks: u64,
}

impl Scheduler for Middle {
    ghost choice = { λ _ xs. length xs / 2 };

    ghost next = { λ _ _ _. Unit {0} };

    ghost inside = { Prim.search rules };

    fn pick(&mut self, offer: &[u8]) -> Option<usize> {
        self.picks = self.picks.wrapping_add(1);
        if offer.is_empty() {
            None
        } else {
            Some(offer.len() / 2)
        }
    }
}

// What any scheduler picks is a place of the offer.
fn number<S: Scheduler>(s: &mut S, offer: &[u8]) -> Option<u8> {
    Some(offer[s.pick(offer)?])
}

#[test]
fn another(rt: HostRuntime) {
    let offer = [1, 2, 3, 4, 5];
    assert_eq!(rt; number(&mut Middle { picks: 0 }, &offer), Some(3));
    assert_eq!(rt;
        number(&mut Narrow::new(Middle { picks: 0 }, 2), &offer),
        Some(2)
    );
}
