// The tasks of a card that begins.
ghost use Rattle.std.specs.Prelude.{◌≡◌, [], ◌∷◌, IfOk, vec_len};
ghost use Rattle.cards.specs.Cards.{card_of};
ghost use Rattle.working.specs.Tasks.{main, starting_words};
ghost use Rattle.tasks.specs.Views.{store_of, tasks_of};

use crate::tasks::Tasks;
use cards::Card;
use kinds::ValueKind;
use std::alloc::{AllocError, Global};
use working::{Frames, Fresh, Record, starting_words};

// Room for the frames of all tasks.
fn room<'c>(heap: Global) -> Result<Vec<Frames<'c>>, AllocError>
    ensures { IfOk result (λ v. vec_len v ≡ 64) }
{
    let mut spare = Vec::with_capacity(heap, 64)?;
    for _ in 0..64u8 {
        spare.push_reserved(Frames::new(heap)?);
    }
    Ok(spare)
}

impl<'c> Tasks<'c> {
    // Main alone, with room for all that the card can make; or want of memory.
    pub fn open<K: ValueKind>(
        heap: Global,
        kind: &K,
        card: &'c Card,
    ) -> Result<Tasks<'c>, AllocError>
        ensures { IfOk result (λ s. (store_of s ≡ starting_words (K.ValueKind.kind kind.now) (card_of card.now)) × (tasks_of s ≡ main (K.ValueKind.kind kind.now) (card_of card.now) ∷ [])) }
    {
        let mut tasks = Tasks {
            store: starting_words(heap, kind, card)?,
            tasks: Vec::with_capacity(heap, 64)?,
            spare: room(heap)?,
        };
        tasks.add(Record::main(kind, card), Fresh::main(card));
        Ok(tasks)
    }
}
