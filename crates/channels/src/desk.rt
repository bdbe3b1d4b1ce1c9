// A bench, and the turns that are out on the channels.
ghost use Rattle.std.specs.Prelude.{◌≡◌, ℕ, ◌<◌, None, Some, length, slice_index_or, true};
ghost use Rattle.bench.specs.Views.{bench_of};
ghost use Rattle.channels.specs.Outs.{Known, Apart, Stepped};
ghost use Rattle.channels.specs.Runs.{Goes};

use crate::delays::Delays;
use crate::moments::{CHANNELS, Cell, Moment, TASKS, TaskSet};
use bench::{Bench, Going, Turn};
use kinds::ValueKind;
use schedulers::Scheduler;

// A run is worked through so many ticks at most.
pub const LAST_TICK: u16 = 400;

// A card has at most so many objects.
const OBJECTS: usize = 16;

// A turn that is out: when it was taken, and when its answer comes.
struct Out {
    turn: Turn,
    since: u16,
    due: u32,
}

// The bench knows each turn on a channel as one that is out, and no two of them are of one task. So every turn can be
// performed, or handed back.
pub struct Desk<'c, K, S> {
    bench: Bench<'c, K>,
    going: Going,
    scheduler: S,
    delays: Delays,
    outs: [Option<Out>; CHANNELS],
    ghost eight: { length outs ≡ 8 },
    ghost known: { Known outs (bench_of bench) },
    ghost apart: { Apart outs },
}

// Lets go of what a channel holds, which is no turn.
fn let_go(slot: Option<Out>)
    requires { slot ≡ None }
{
    match slot {
        None => {}
        Some(_) => unreachable!(),
    }
}

// Puts a turn on a channel that has none.
fn put(slot: &mut Option<Out>, out: Out)
    requires { slot.old ≡ None }
    ensures { slot.new ≡ Some out }
{
    let_go(slot.replace(out));
}

impl<'c, K: ValueKind, S: Scheduler + Drop> Desk<'c, K, S> {
    pub fn new(bench: Bench<'c, K>, going: Going, scheduler: S, delays: Delays) -> Desk<'c, K, S>
        ensures { result.bench ≡ bench.entry }
    {
        Desk {
            bench,
            going,
            scheduler,
            delays,
            outs: [None, None, None, None, None, None, None, None],
        }
    }

    // Whether the answer of a channel's turn comes at a tick.
    fn is_due(&self, channel: usize, tick: u16) -> bool
        requires { channel < 8 }
    {
        match &self.outs[channel] {
            None => false,
            Some(out) => out.due == u32::from(tick),
        }
    }

    // The channel's turn is performed.
    fn perform(&mut self, channel: usize)
        requires { channel < 8 }
        ensures goes { Goes K.kind self.old.bench self.new.bench }
        ensures steps { Stepped (K.kind self.old.bench.kind.now) self.old.outs channel (bench_of self.old.bench) (bench_of self.new.bench) }
    {
        if let Some(out) = self.outs[channel].take() {
            let Out {
                turn,
                since: _,
                due: _,
            } = out;
            let _ = self.bench.perform(turn).unwrap();
        }
    }

    fn is_idle(&self, channel: usize) -> bool
        requires { channel < 8 }
        ensures { result ≡ true → slice_index_or self.now.outs channel None ≡ None }
    {
        self.outs[channel].is_none()
    }

    // An idle channel takes a turn, if one is offered.
    fn take(&mut self, channel: usize, tick: u16)
        requires below { channel < 8 }
        requires idle { slice_index_or self.old.outs channel None ≡ None }
        ensures { Goes K.kind self.old.bench self.new.bench }
    {
        if let Ok(turn) = self.bench.take(&self.going, &mut self.scheduler) {
            let due = u32::from(tick) + self.delays.draw();
            let out = Out {
                turn,
                since: tick,
                due,
            };
            put(&mut self.outs[channel], out);
        }
    }

    // The channel's turn is given up.
    fn hand_back(&mut self, channel: usize)
        requires { channel < 8 }
        ensures goes { Goes K.kind self.old.bench self.new.bench }
        ensures gone { slice_index_or self.new.outs channel None ≡ None }
        ensures others { (i : ℕ) → slice_index_or self.old.outs i None ≡ None → slice_index_or self.new.outs i None ≡ None }
    {
        if let Some(out) = self.outs[channel].take() {
            let Out {
                turn,
                since: _,
                due: _,
            } = out;
            self.bench.hand_back(turn).unwrap();
        }
    }

    // What each channel does, at a tick.
    fn cells(&self, tick: u16) -> [Cell; CHANNELS] {
        let mut cells = [Cell::Waits; CHANNELS];
        for (cell, out) in cells.iter_mut().zip(&self.outs) {
            if let Some(out) = out {
                let task = out.turn.task();
                *cell = if out.since == tick {
                    Cell::Begins(task)
                } else {
                    Cell::GoesOn(task)
                };
            }
        }
        cells
    }

    // The tasks that have an entry in a queue.
    fn queued(&self) -> TaskSet {
        let mut tasks = TaskSet::EMPTY;
        for object in 0..OBJECTS {
            for place in 0..TASKS {
                if let Some(entry) = self.bench.look(object, place) {
                    tasks.insert(entry.number);
                }
            }
        }
        tasks
    }

    // Whether no turn is out.
    fn rests(&self) -> bool {
        self.outs.iter().all(|out| out.is_none())
    }

    // At a tick the turns whose answers come are performed, and then the idle channels take turns.
    #[tactic(auto, using(crate::proofs::Runs::goes_nowhere, crate::proofs::Runs::goes_on))]
    fn tick(&mut self, tick: u16)
        ensures { Goes K.kind self.old.bench self.new.bench }
    {
        for channel in 0..CHANNELS {
            if self.is_due(channel, tick) {
                self.perform(channel);
            }
        }
        for channel in 0..CHANNELS {
            if self.is_idle(channel) {
                self.take(channel, tick);
            }
        }
    }

    // Works until no turn is out and none is offered, and notes every tick.
    #[tactic(auto, using(crate::proofs::Runs::goes_nowhere, crate::proofs::Runs::goes_on))]
    pub fn run(&mut self, moments: &mut Vec<Moment>)
        ensures { Goes K.kind self.old.bench self.new.bench }
    {
        for tick in 0..LAST_TICK {
            self.tick(tick);
            let moment = Moment::new(self.cells(tick), self.queued());
            if self.rests() || moments.push(moment).is_err() {
                return;
            }
        }
    }

    // The bench without the channels. A turn that is still out is handed back.
    #[tactic(auto, using(crate::proofs::Runs::goes_nowhere, crate::proofs::Runs::goes_on))]
    pub fn leave(mut self) -> (Bench<'c, K>, Going)
        ensures { Goes K.kind self.entry.bench result.0 }
    {
        for channel in 0..CHANNELS {
            self.hand_back(channel);
        }
        let Desk {
            bench,
            going,
            scheduler: _,
            delays: _,
            outs,
        } = self;
        // What can't be let go is taken out of an array by name.
        let [a, b, c, d, e, f, g, h] = outs;
        let_go(a);
        let_go(b);
        let_go(c);
        let_go(d);
        let_go(e);
        let_go(f);
        let_go(g);
        let_go(h);
        (bench, going)
    }
}
