// The scheduler that a card names.
ghost use Rattle.std.specs.Prelude.{◌≡◌};
ghost use Rattle.schedulers.specs.CardOrders.{state, start, chosen, after, chosen_inside};

use crate::ends::{First, Last};
use crate::narrow::Narrow;
use crate::scheduler::Scheduler;
use crate::turns::Turns;
use cards::OrderName;

// The width of the order that a card names `narrow`.
const WIDTH: usize = 4;

// An enum and no `dyn`: the orders that a card can name are four, and each is held by value.
#[derive(Debug, Drop)]
pub enum CardOrder {
    First(First),
    Last(Last),
    Turns(Turns),
    Narrow(Narrow<Last>),
}

// The named order, before its first pick.
impl From<OrderName> for CardOrder {
    ghost from_gives = { λ name order. state order ≡ start name };

    fn from(name: OrderName) -> CardOrder {
        match name {
            OrderName::First => CardOrder::First(First),
            OrderName::Last => CardOrder::Last(Last),
            OrderName::Turns => CardOrder::Turns(Turns::new()),
            OrderName::Narrow => CardOrder::Narrow(Narrow::new(Last, WIDTH)),
        }
    }
}

impl Scheduler for CardOrder {
    ghost choice = { λ s. chosen (state s) };

    ghost next = { λ s xs t. state t ≡ after (state s) xs };

    ghost inside = { chosen_inside };

    fn pick(&mut self, offer: &[u8]) -> Option<usize> {
        match self {
            CardOrder::First(s) => s.pick(offer),
            CardOrder::Last(s) => s.pick(offer),
            CardOrder::Turns(s) => s.pick(offer),
            CardOrder::Narrow(s) => s.pick(offer),
        }
    }
}
