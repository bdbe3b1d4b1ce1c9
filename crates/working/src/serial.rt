// Serial working of a card.
ghost use Rattle.std.specs.Prelude.{◌≡◌, IfOk};
ghost use Rattle.cards.specs.Cards.{card_of};
ghost use Rattle.working.specs.Tasks.{starting_words};
ghost use Rattle.working.specs.Records.{MainRecord};
ghost use Rattle.working.specs.Results.{WorkedSerially};

use crate::declared::Declared;
use crate::fault::TaskFault;
use crate::pile::work_off;
use crate::record::Record;
use crate::task::Task;
use crate::work::{Frames, Fresh};
use cards::Card;
use kinds::ValueKind;
use std::alloc::{AllocError, Global};

// What a card comes to: the words of all objects, or the first fault. With the steps made and the tasks made, main
// among them.
#[derive(Drop)]
pub struct Worked {
    pub outcome: Result<Vec<u32>, TaskFault>,
    pub steps: u32,
    pub made: u32,
}

impl Record {
    // Main's record: literal 0 in each word, object 0 in each pointer, everything deferred.
    pub fn main<K: ValueKind>(kind: &K, card: &Card) -> Record
        ensures { MainRecord (K.ValueKind.kind kind.now) (card_of card.now) result }
    {
        let zero = kind.literal(0);
        let objects = card.words().len() as u8;
        Record {
            words: [zero; 4],
            pointers: [0; 4],
            declared: [Declared::EVERYTHING; 16],
            objects,
        }
    }
}

// The words that the objects start with.
#[tactic(auto, unfolding(crate::specs::Tasks::starting_words))]
pub fn starting_words<K: ValueKind>(
    heap: Global,
    kind: &K,
    card: &Card,
) -> Result<Vec<u32>, AllocError>
    ensures { IfOk result (λ v. v.items ≡ starting_words (K.ValueKind.kind kind.now) (card_of card.now)) }
{
    card.words().iter().map(|w| kind.literal(*w)).collect(heap)
}

// Works a card serially: a task that makes a child waits until the child is finished.
pub fn work_serially<K: ValueKind>(
    heap: Global,
    kind: &K,
    card: &Card,
) -> Result<Worked, AllocError>
    ensures { IfOk result (λ w. WorkedSerially (K.ValueKind.kind kind.now) (card_of card.now) w) }
{
    let mut store = starting_words(heap, kind, card)?;
    let own = Record::main(kind, card);
    let main = Task::begin(own, Fresh::main(card), Frames::new(heap)?);
    let ran = work_off(heap, kind, main, &mut store)?;
    let outcome = ran.stop.and(Ok(store));
    Ok(Worked {
        outcome,
        steps: ran.steps,
        made: ran.made,
    })
}
