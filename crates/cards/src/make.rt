// Making cards, and reading them.
ghost use Rattle.std.specs.Prelude.{◌≡◌, true, IfOk};
ghost use Rattle.cards.specs.Literals.{is_literal, all_literals};
ghost use Rattle.cards.specs.Trees.{block_of};
ghost use Rattle.cards.specs.Cards.{card_of, blank, Makes};

use crate::card::Card;
use crate::lines::{KindName, OrderName};
use crate::measure::block_extent;
use crate::tree::Block;
use std::alloc::{AllocError, Global};

// The first limit that a card would break.
#[derive(Clone, Copy, Debug, PartialEq, Eq)]
pub enum Limit {
    Objects,
    Lines,
    Depth,
    Pointed,
    Tasks,
    Steps,
}

// A word is a literal by its type: this states the fact, and there is nothing to do.
fn be_literal(word: i16)
    ensures { is_literal word ≡ true }
{
    let _ = word;
}

fn be_literals(words: &[i16])
    ensures { all_literals words.now ≡ true }
{
    for word in words {
        be_literal(*word);
    }
}

impl Card {
    // The card of these parts, or the first limit that it would break.
    pub fn new(
        kind: KindName,
        order: OrderName,
        words: Vec<i16>,
        body: Block,
    ) -> Result<Card, Limit>
        ensures { Makes (record { kind = kind; order = order; words = words.items; body = block_of body }) result }
    {
        let extent = block_extent(&body);
        be_literals(&words);
        if words.is_empty() || words.len() > 16 {
            return Err(Limit::Objects);
        }
        if extent.lines > 256 {
            return Err(Limit::Lines);
        }
        if extent.depth > 8 {
            return Err(Limit::Depth);
        }
        if extent.objects as usize > words.len() {
            return Err(Limit::Pointed);
        }
        if extent.tasks > 63 {
            return Err(Limit::Tasks);
        }
        if extent.steps > 999_999 {
            return Err(Limit::Steps);
        }
        Ok(Card {
            kind,
            order,
            words,
            body,
        })
    }

    // Tally, first, one object 0, no lines.
    pub fn blank(heap: Global) -> Result<Card, AllocError>
        ensures { IfOk result (λ c. card_of c ≡ blank) }
    {
        let mut words = Vec::new(heap);
        words.push(0)?;
        Ok(Card {
            kind: KindName::Tally,
            order: OrderName::First,
            words,
            body: Block::End,
        })
    }

    pub fn kind(&self) -> KindName
        ensures { result ≡ (card_of self.now).kind }
    {
        self.kind
    }

    pub fn order(&self) -> OrderName
        ensures { result ≡ (card_of self.now).order }
    {
        self.order
    }

    // The starting words, as literals.
    pub fn words(&self) -> &[i16]
        ensures { result.now ≡ (card_of self.now).words }
    {
        &self.words
    }

    // Main's block.
    pub fn body(&self) -> &Block
        ensures { block_of result.now ≡ (card_of self.now).body }
    {
        &self.body
    }
}
