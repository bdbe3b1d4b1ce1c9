// A place for a card.
ghost use Rattle.std.specs.Prelude.{◌≡◌, ◌+◌, length, IfOk};
ghost use Rattle.cards.specs.Cards.{card_of, blank};
ghost use Rattle.cards.specs.Trees.{block_of};
ghost use Rattle.loading.specs.Texts.{rest_of, text_number};
ghost use Rattle.loading.specs.Headers.{header_of};
ghost use Rattle.loading.specs.Loading.{card, bounded, BodyIs, FitsCard, reading, ReadingIs, held_card, Loads};

use crate::blocks::read_block;
use crate::cursor::Cursor;
use crate::head::Header;
use crate::header::read_header;
use crate::refusal::LoadRefusal;
use cards::{Block, Card, Limit};
use std::alloc::{AllocError, Global};

// The most bytes that a text may have.
const MOST_BYTES: usize = 16_384;

// How deep blocks may nest below main's.
const MOST_DEPTH: u8 = 8;

// Holds a card: always one within its limits.
#[derive(Drop)]
pub struct Slot {
    card: Card,
}

// Reads the lines section after the header.
fn read_body(heap: Global, lines: Cursor<'_>, header: &Header) -> Result<Block, LoadRefusal>
    requires { text_number lines ≡ 6 + length (header_of header.now).words }
    ensures { BodyIs result (header_of header.now) (rest_of lines.entry) }
{
    let mut section = lines.begin_section(header);
    let (body, closer) = read_block(heap, &mut section, MOST_DEPTH)?;
    closer.ended_section()?;
    Ok(body)
}

// The card of a header and a body that fit but for the bounds.
fn bound(header: Header, body: Block) -> Result<Card, LoadRefusal>
    requires { FitsCard (card (header_of header) (block_of body)) }
    ensures { ReadingIs result (bounded (card (header_of header) (block_of body))) }
{
    Card::new(header.kind, header.order, header.words, body).map_err(|limit| match limit {
        Limit::Tasks => LoadRefusal::TooManyTasks,
        Limit::Steps => LoadRefusal::TooManySteps,
        Limit::Objects | Limit::Lines | Limit::Depth | Limit::Pointed => unreachable(),
    })
}

// Reads a text as a card.
fn read_card(heap: Global, text: &[u8]) -> Result<Card, LoadRefusal>
    ensures { ReadingIs result (reading text.now) }
{
    if text.len() > MOST_BYTES {
        return Err(LoadRefusal::TooLong);
    }
    let mut lines = Cursor {
        rest: text,
        header: 0,
        line: 1,
        left: 0,
        objects: 0,
    };
    let header = read_header(heap, &mut lines)?;
    let body = read_body(heap, lines, &header)?;
    bound(header, body)
}

impl Slot {
    // A slot that holds tally, first, one object 0, no lines.
    pub fn new(heap: Global) -> Result<Slot, AllocError>
        ensures { IfOk result (λ s. held_card s ≡ blank) }
    {
        let card = Card::blank(heap)?;
        Ok(Slot { card })
    }

    // The card that it holds.
    pub fn card(&self) -> &Card
        ensures { card_of result.now ≡ held_card self.now }
    {
        &self.card
    }

    // Reads a text into the slot, or says why it is no card and leaves the slot as it is.
    pub fn load(&mut self, heap: Global, text: &[u8]) -> Result<(), LoadRefusal>
        ensures { Loads text.now result self.old self.new }
    {
        let card = read_card(heap, text)?;
        self.card = card;
        Ok(())
    }
}
