// A card is opened.
ghost use Rattle.std.specs.Prelude.{IfOk};
ghost use Rattle.cards.specs.Cards.{card_of};
ghost use Rattle.bench.specs.Opens.{Opens};

use crate::bench::Bench;
use crate::tokens::Going;
use cards::Card;
use kinds::ValueKind;
use lines::Line;
use sheets::LONGEST;
use std::alloc::{AllocError, Global};
use tasks::Tasks;

impl<'c, K: ValueKind> Bench<'c, K> {
    // A bench on which main waits, and the state of its run. All the memory that its calls can want is had here.
    pub fn open(
        heap: Global,
        kind: &'c K,
        card: &'c Card,
        run: u16,
    ) -> Result<(Bench<'c, K>, Going), AllocError>
        ensures { IfOk result (λ p. Opens (K.kind kind.now) (card_of card.now) run kind.now p.0 p.1) }
    {
        let tasks = Tasks::open(heap, kind, card)?;
        let line = Line::new(heap, tasks.declared(0))?;
        let page = Vec::with_capacity(heap, LONGEST)?;
        let bench = Bench {
            kind,
            run,
            tasks,
            line,
            steps: 0,
            closed: false,
            page,
        };
        Ok((bench, Going { run }))
    }
}
