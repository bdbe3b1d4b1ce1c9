// How work begins and moves on.
ghost use Rattle.std.specs.Prelude.{◌≡◌, suc, ◌+◌, ◌<◌, max, [], ◌∷◌, ◌++◌};
ghost use Rattle.cards.specs.Code.{next, Statement as Model};
ghost use Rattle.cards.specs.Bounds.{depth};
ghost use Rattle.cards.specs.Trees.{block_of};
ghost use Rattle.cards.specs.Cards.{card_of};
ghost use Rattle.working.specs.Frames.{rounds_block, rounds_depth};
ghost use Rattle.working.specs.Works.{ranks_of, work_of, below, over, over_both, Fits, Few, Stays, Heads, after_rounds};

use crate::frame::{Frame, Rounds};
use crate::place::Place;
use crate::work::{Frames, Fresh, Work};
use cards::{Block, Card, Step};
use std::alloc::{AllocError, Global};

// What work comes to next: nothing, a statement, or one of the rounds left. Three cases that one `match` tells apart.
#[derive(Clone, Copy)]
pub(crate) enum Head<'c> {
    Nothing,
    Next(&'c Step),
    Round(Rounds<'c>),
}

impl Place {
    // The ranks of a task's makers and its own.
    pub fn ranks(&self) -> &[u8]
        ensures { result.now ≡ ranks_of self.now }
    {
        &self.ranks[..self.depth as usize]
    }

    // The place of the child of this rank.
    fn child(self, rank: u8) -> Place
        requires { self.depth < 8 }
        ensures place { ranks_of result ≡ ranks_of self ++ rank ∷ [] }
        ensures depth { result.depth ≡ self.depth + 1 }
    {
        let mut ranks = self.ranks;
        ranks[self.depth as usize] = rank;
        Place {
            ranks,
            depth: self.depth + 1,
        }
    }
}

impl<'c> Frames<'c> {
    // Room for a task's frames, or want of memory.
    pub fn new(heap: Global) -> Result<Frames<'c>, AllocError> {
        let frames = Vec::with_capacity(heap, 8)?;
        Ok(Frames { frames })
    }
}

impl<'c> Fresh<'c> {
    // Main, not begun.
    pub fn main(card: &'c Card) -> Fresh<'c>
        ensures body { block_of result.body.now ≡ (card_of card.now).body }
        ensures place { ranks_of result.place ≡ [] }
    {
        Fresh {
            place: Place {
                ranks: [0; 8],
                depth: 0,
            },
            body: card.body(),
        }
    }
}

impl<'c> Work<'c> {
    // The work of a task that begins.
    pub(crate) fn begin(fresh: Fresh<'c>, frames: Frames<'c>) -> Work<'c>
        ensures work { work_of result ≡ block_of fresh.entry.body.now }
        ensures place { result.place ≡ fresh.entry.place }
        ensures children { result.children ≡ 0 }
    {
        Work {
            place: fresh.place,
            children: 0,
            at: fresh.body,
            frames: frames.frames,
        }
    }

    // Where the task stands.
    pub fn place(&self) -> Place
        ensures { result ≡ self.now.place }
    {
        self.place
    }

    // Goes past what is empty, to the next statement or round.
    pub(crate) fn head(&mut self) -> Head<'c>
        ensures heads { Heads result self.old self.new }
        ensures stays { Stays self.old self.new }
    {
        loop {
            match self.at {
                Block::Then(step) => return Head::Next(step),
                Block::End => {
                    let Some(frame) = self.frames.pop() else {
                        return Head::Nothing;
                    };
                    match frame {
                        Frame::After(rest) => self.at = rest,
                        Frame::Again(rounds) => return Head::Round(rounds),
                    }
                }
            }
        }
    }

    // Goes on with the rest of the block. What fits depends on the frames that are there, so no block's type can tell it;
    // and what stays ties the work before to the work after.
    pub(crate) fn pass(&mut self, rest: &'c Block)
        requires fits { Fits self.old (depth (block_of rest.now)) }
        requires few { Few self.old (over (block_of rest.now) self.old) }
        ensures work { work_of self.new ≡ over (block_of rest.now) self.old }
        ensures stays { Stays self.old self.new }
    {
        self.at = rest;
    }

    // Goes into an arm, with the rest after it.
    pub(crate) fn enter(&mut self, arm: &'c Block, rest: &'c Block)
        requires arm { Fits self.old (suc (depth (block_of arm.now))) }
        requires rest { Fits self.old (depth (block_of rest.now)) }
        requires few { Few self.old (over_both (block_of arm.now) (block_of rest.now) self.old) }
        ensures work { work_of self.new ≡ over_both (block_of arm.now) (block_of rest.now) self.old }
        ensures stays { Stays self.old self.new }
    {
        self.frames.push_reserved(Frame::After(rest));
        self.at = arm;
    }

    // Begins one of the rounds left, or goes on where none is.
    pub(crate) fn round(&mut self, rounds: Rounds<'c>)
        requires fits { Fits self.old (rounds_depth rounds) }
        requires few { Few self.old (rounds_block rounds (below self.old)) }
        ensures work { work_of self.new ≡ after_rounds rounds.entry.line rounds.entry.left (block_of rounds.entry.body.now) (over (block_of rounds.entry.rest.now) self.old) }
        ensures stays { Stays self.old self.new }
    {
        if rounds.left == 0 {
            self.at = rounds.rest;
        } else {
            self.frames.push_reserved(Frame::Again(Rounds {
                left: rounds.left - 1,
                ..rounds
            }));
            self.at = rounds.body;
        }
    }

    // Makes a child of a block, and goes on with the rest.
    pub(crate) fn spawn(&mut self, body: &'c Block, rest: &'c Block) -> Fresh<'c>
        requires body { Fits self.old (suc (depth (block_of body.now))) }
        requires rest { Fits self.old (depth (block_of rest.now)) }
        requires few { Few self.old (next 0 (Model.task [] (block_of body.now)) (over (block_of rest.now) self.old)) }
        ensures fresh { (block_of result.body.now ≡ block_of body.now) × (ranks_of result.place ≡ ranks_of self.old.place ++ suc self.old.children ∷ []) }
        ensures work { work_of self.new ≡ over (block_of rest.now) self.old }
        ensures place { self.new.place ≡ self.old.place }
        ensures children { self.new.children ≡ suc self.old.children }
    {
        self.children += 1;
        self.at = rest;
        Fresh {
            place: self.place.child(self.children),
            body,
        }
    }
}
