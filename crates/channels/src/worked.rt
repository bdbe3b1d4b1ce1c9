// A card is worked with the channels.
ghost use Rattle.std.specs.Prelude.{◌≡◌, IfOk, IfSome};
ghost use Rattle.cards.specs.Cards.{card_of};
ghost use Rattle.sheets.specs.Sheets.{sheet_of};

use crate::delays::Delays;
use crate::desk::{Desk, LAST_TICK};
use crate::moments::Moment;
use bench::Bench;
use cards::Card;
use kinds::ValueKind;
use schedulers::CardOrder;
use sheets::LONGEST;
use std::alloc::{AllocError, Global};

// One bench is open, so one run number will do.
const RUN: u16 = 0;

// What was noted of each tick, and the sheet, if the run was settled before the last tick.
#[derive(Drop)]
pub struct Worked {
    pub moments: Vec<Moment>,
    pub sheet: Option<Vec<u8>>,
}

// Works a card on a bench, under the order that it names. All memory is had before the first turn is out. Whatever the
// delays are, the sheet is that of serial working.
pub fn work<'c, K: ValueKind>(
    heap: Global,
    kind: &'c K,
    card: &'c Card,
    delays: Delays,
) -> Result<Worked, AllocError>
    ensures { IfOk result (λ w. IfSome w.sheet (λ v. v.items ≡ sheet_of (K.kind kind.now) (card_of card.now))) }
{
    let mut moments = Vec::with_capacity(heap, LAST_TICK as usize)?;
    let mut sheet = vec![in heap; 0; LONGEST]?;
    let (bench, going) = Bench::open(heap, kind, card, RUN)?;
    let mut desk = Desk::new(bench, going, CardOrder::from(card.order()), delays);
    desk.run(&mut moments);
    let (mut bench, going) = desk.leave();
    let Ok(closed) = bench.close(going) else {
        return Ok(Worked {
            moments,
            sheet: None,
        });
    };
    let length = bench.sheet(closed, &mut sheet).unwrap();
    sheet.truncate(length);
    Ok(Worked {
        moments,
        sheet: Some(sheet),
    })
}
