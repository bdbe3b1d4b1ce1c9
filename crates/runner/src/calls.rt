// The calls of a bench at work: what is granted, what is refused, and what a refusal hands back.
ghost use Rattle.schedulers.specs.Schedulers.{first};
ghost use Rattle.std.proofs.Common.{rules};

use crate::*;
use bench::{Closed, Going, Refused, Turn};
use cards::Level;
use lines::{Deed, Event, State};
use runs::Refusal;
use schedulers::{First, Last};
use std::process::Abort;
use std::test::Fail;
use working::{Declared, Fault, FaultKind};

// Main finishes at its first step.
const EMPTY: &[u8] = b"bench 2\nkind tally\norder first\nobjects 1\n5\nlines 0\n";

const EMPTY_SHEET: &[u8] = b"run 2\ntasks 1\nsteps 1\nobjects 1\n5\n";

// Main is stuck at its first step: it declares no immediate rd.
const FAULTY: &[u8] = b"bench 2\nkind tally\norder first\nobjects 1\n5\nlines 1\nread n0 p0\n";

const FAULTY_SHEET: &[u8] = b"fault 3\nkind read\nline 1\ntask main\n";

const READ: Fault = Fault {
    kind: FaultKind::Read,
    line: 1,
};

// Main makes two children that join to object 1.
const CHILDREN: &[u8] =
    b"bench 2\nkind tally\norder last\nobjects 2\n4\n-90\nlines 15\npoint p0 o0\npoint p1 o1\ntask\nrd p0\ncm p1\ndo\nread n0 p0\njoin p1 n0\nend\ntask\ncm p1\ndo\nset n0 7\njoin p1 n0\nend\n";

const CHILDREN_SHEET: &[u8] = b"run 2\ntasks 3\nsteps 11\nobjects 2\n4\n-79\n";

// Chooses the first, and counts how often it is asked.
#[derive(Drop)]
struct Counting {
    picks: u64,
}

impl Scheduler for Counting {
    ghost choice = { λ _. first };

    ghost next = { λ _ _ _. Unit {0} };

    ghost inside = { Prim.search rules };

    fn pick(&mut self, offer: &[u8]) -> Option<usize> {
        self.picks = self.picks.wrapping_add(1);
        First.pick(offer)
    }
}

fn load(rt: &impl Abort, heap: Global, text: &[u8]) -> Result<Slot, AllocError> {
    let mut slot = Slot::new(heap)?;
    assert!(rt; slot.load(heap, text).is_ok());
    Ok(slot)
}

fn granted<A, T>(rt: &impl Abort, answer: Result<A, Refused<T>>) -> A {
    match answer {
        Ok(given) => given,
        Err(Refused { refusal, given: _ }) => panic!(rt; "refused: {refusal:?}"),
    }
}

// What a refused call hands back.
fn refused<A: Drop, T>(rt: &impl Abort, answer: Result<A, Refused<T>>, want: Refusal) -> T {
    match answer {
        Ok(_) => panic!(rt; "granted, and not {want:?}"),
        Err(Refused { refusal, given }) => {
            assert_eq!(rt; refusal, want);
            given
        }
    }
}

fn given(rt: &impl Abort, answer: Result<Turn, Refusal>) -> Turn {
    match answer {
        Ok(turn) => turn,
        Err(refusal) => panic!(rt; "refused: {refusal:?}"),
    }
}

fn withheld(rt: &impl Abort, answer: Result<Turn, Refusal>, want: Refusal) {
    match answer {
        Ok(_) => panic!(rt; "given, and not {want:?}"),
        Err(refusal) => assert_eq!(rt; refusal, want),
    }
}

// Takes a turn and performs it.
fn step<S: Scheduler>(
    rt: &impl Abort,
    bench: &mut Bench<'_, Tally>,
    going: &Going,
    scheduler: &mut S,
) -> Result<(), Fault> {
    let turn = given(rt, bench.take(going, scheduler));
    granted(rt, bench.perform(turn))
}

// Works a run off and closes it.
fn ended(rt: &impl Abort, bench: &mut Bench<'_, Tally>, going: Going) -> Closed {
    let going = granted(rt, bench.work_off(going, &mut First));
    granted(rt, bench.close(going))
}

fn gives(rt: &impl Abort, bench: &mut Bench<'_, Tally>, closed: Closed, sheet: &[u8]) {
    let mut buffer = [0; LONGEST];
    let length = granted(rt, bench.sheet(closed, &mut buffer));
    assert!(rt; buffer.get(..length) == Some(sheet), "another sheet");
}

// What taking comes to; a turn that it gives is handed back.
fn try_take(rt: &impl Abort, bench: &mut Bench<'_, Tally>, going: &Going) -> Deed {
    match bench.take(going, &mut First) {
        Ok(turn) => {
            granted(rt, bench.hand_back(turn));
            Deed::Give
        }
        Err(refusal) => {
            assert_eq!(rt; refusal, Refusal::NothingToOffer);
            Deed::Refuse
        }
    }
}

// What an event comes to, and the turn that is left: a refusal hands it back, and a take doesn't ask for it.
fn came(
    rt: &impl Abort,
    bench: &mut Bench<'_, Tally>,
    going: &Going,
    event: Event,
    turn: Turn,
) -> (Deed, Option<Turn>) {
    let answer = match event {
        Event::Take => return (try_take(rt, bench, going), Some(turn)),
        Event::Perform => bench.perform(turn).map(|_| Deed::Step),
        Event::HandBack => bench.hand_back(turn).map(|()| Deed::Return),
    };
    match answer {
        Ok(deed) => (deed, None),
        Err(Refused { refusal, given }) => {
            assert_eq!(rt; refusal, Refusal::Foreign);
            (Deed::Refuse, Some(given))
        }
    }
}

// Every state of main, and every event. Where main has no turn out, the turn is one of a twin: a bench with the same
// card and the same run number.
#[test]
fn every_state_and_event(rt: HostRuntime) -> Result<(), Fail> {
    let heap = rt.alloc();
    let empty = load(&rt, heap, EMPTY)?;
    let faulty = load(&rt, heap, FAULTY)?;
    for (state, slot, deeds, sheet) in [
        (
            State::Waiting,
            &empty,
            [Deed::Give, Deed::Refuse, Deed::Refuse],
            EMPTY_SHEET,
        ),
        (
            State::Out,
            &empty,
            [Deed::Refuse, Deed::Step, Deed::Return],
            EMPTY_SHEET,
        ),
        (State::Stuck(READ), &faulty, [Deed::Refuse; 3], FAULTY_SHEET),
        (State::Finished, &empty, [Deed::Refuse; 3], EMPTY_SHEET),
    ] {
        for (event, deed) in [Event::Take, Event::Perform, Event::HandBack]
            .into_iter()
            .zip(deeds)
        {
            let (mut bench, going) = Bench::open(heap, &Tally, slot.card(), 3)?;
            let (mut twin, of_twin) = Bench::open(heap, &Tally, slot.card(), 3)?;
            match state {
                State::Stuck(fault) => assert_eq!(rt;
                    step(&rt, &mut bench, &going, &mut First),
                    Err(fault)
                ),
                State::Finished => assert_eq!(rt;
                    step(&rt, &mut bench, &going, &mut First),
                    Ok(())
                ),
                State::Waiting | State::Out => {}
            }
            let out = state == State::Out;
            let turn = if out {
                given(&rt, bench.take(&going, &mut First))
            } else {
                given(&rt, twin.take(&of_twin, &mut First))
            };
            let (done, left) = came(&rt, &mut bench, &going, event, turn);
            assert_eq!(rt; done, deed, "{event:?} in {state:?}");
            if let Some(turn) = left {
                let answer = if out {
                    bench.hand_back(turn)
                } else {
                    twin.hand_back(turn)
                };
                granted(&rt, answer);
            }
            let closed = ended(&rt, &mut bench, going);
            gives(&rt, &mut bench, closed, sheet);
        }
    }
    Ok(())
}

// States and turns of another run are refused before anything else is looked at, and change nothing.
#[test]
fn another_run(rt: HostRuntime) -> Result<(), Fail> {
    let heap = rt.alloc();
    let slot = load(&rt, heap, CHILDREN)?;
    let (mut bench, going) = Bench::open(heap, &Tally, slot.card(), 1)?;
    let (mut other, of_other) = Bench::open(heap, &Tally, slot.card(), 2)?;
    let mut scheduler = Counting { picks: 0 };

    // A turn of another run, while the same task of this one has its turn out.
    let own = given(&rt, bench.take(&going, &mut First));
    let turn = given(&rt, other.take(&of_other, &mut First));
    let turn = refused(&rt, bench.perform(turn), Refusal::Foreign);
    let turn = refused(&rt, bench.hand_back(turn), Refusal::Foreign);
    assert_eq!(rt; turn.task(), own.task());
    granted(&rt, other.hand_back(turn));

    // A going state of another run. With its own, this bench would have nothing to offer, and be unsettled.
    withheld(&rt, bench.take(&of_other, &mut scheduler), Refusal::Foreign);
    let of_other = refused(
        &rt,
        bench.work_off(of_other, &mut scheduler),
        Refusal::Foreign,
    );
    let of_other = refused(&rt, bench.close(of_other), Refusal::Foreign);
    assert_eq!(rt; scheduler.picks, 0);
    granted(&rt, bench.hand_back(own));

    // A closed state of another run. With its own, the buffer would be too short.
    let closed = ended(&rt, &mut bench, going);
    let of_other = ended(&rt, &mut other, of_other);
    let of_other = refused(&rt, bench.sheet(of_other, &mut []), Refusal::Foreign);

    gives(&rt, &mut bench, closed, CHILDREN_SHEET);
    gives(&rt, &mut other, of_other, CHILDREN_SHEET);
    Ok(())
}

// While main waits, the run can't be closed. While its turn is out, nothing is offered and the run can't be worked off.
#[test]
fn not_yet(rt: HostRuntime) -> Result<(), Fail> {
    let heap = rt.alloc();
    let slot = load(&rt, heap, CHILDREN)?;
    let (mut bench, going) = Bench::open(heap, &Tally, slot.card(), 1)?;
    let mut scheduler = Counting { picks: 0 };

    let going = refused(&rt, bench.close(going), Refusal::Unsettled);
    let own = given(&rt, bench.take(&going, &mut First));
    withheld(
        &rt,
        bench.take(&going, &mut scheduler),
        Refusal::NothingToOffer,
    );
    let going = refused(
        &rt,
        bench.work_off(going, &mut scheduler),
        Refusal::Unsettled,
    );
    let going = refused(&rt, bench.close(going), Refusal::Unsettled);
    assert_eq!(rt; scheduler.picks, 0);

    assert_eq!(rt; granted(&rt, bench.perform(own)), Ok(()));
    let closed = ended(&rt, &mut bench, going);
    gives(&rt, &mut bench, closed, CHILDREN_SHEET);
    Ok(())
}

// A state or a turn holds no more than the number of its run, and a turn that of its task. So those of a twin pass for
// a bench's own where its own would.
#[test]
fn twins(rt: HostRuntime) -> Result<(), Fail> {
    let heap = rt.alloc();
    let slot = load(&rt, heap, CHILDREN)?;
    let (mut bench, going) = Bench::open(heap, &Tally, slot.card(), 1)?;
    let (mut twin, of_twin) = Bench::open(heap, &Tally, slot.card(), 1)?;
    let (_, of_third) = Bench::open(heap, &Tally, slot.card(), 1)?;

    let turn = given(&rt, twin.take(&of_twin, &mut First));
    let turn = refused(&rt, bench.perform(turn), Refusal::Foreign);
    let own = given(&rt, bench.take(&going, &mut First));
    assert_eq!(rt; granted(&rt, bench.perform(turn)), Ok(()));
    let own = refused(&rt, bench.hand_back(own), Refusal::Foreign);
    granted(&rt, twin.hand_back(own));

    let of_twin = ended(&rt, &mut twin, of_twin);
    let of_twin = refused(&rt, bench.sheet(of_twin, &mut []), Refusal::Foreign);
    let closed = ended(&rt, &mut bench, going);
    withheld(&rt, bench.take(&of_third, &mut First), Refusal::Foreign);
    let of_third = refused(&rt, bench.work_off(of_third, &mut First), Refusal::Foreign);
    let _ = refused(&rt, bench.close(of_third), Refusal::Foreign);

    gives(&rt, &mut bench, of_twin, CHILDREN_SHEET);
    gives(&rt, &mut twin, closed, CHILDREN_SHEET);
    Ok(())
}

// The sheet of `EMPTY` has 34 bytes.
fn fill(rt: &impl Abort, heap: Global, slot: &Slot, buffer: &mut [u8]) -> Result<(), AllocError> {
    let (mut bench, going) = Bench::open(heap, &Tally, slot.card(), 1)?;
    let closed = ended(rt, &mut bench, going);
    let mut short = [b'.'; 33];
    let closed = refused(rt, bench.sheet(closed, &mut short), Refusal::BufferTooShort);
    assert!(rt; short == [b'.'; 33], "a refused call writes");
    assert_eq!(rt; granted(rt, bench.sheet(closed, buffer)), 34);
    assert!(rt; buffer.get(..34) == Some(EMPTY_SHEET), "another sheet");
    assert!(rt; buffer.iter().skip(34).all(|b| *b == b'.'), "later bytes");
    Ok(())
}

#[test]
fn buffers(rt: HostRuntime) -> Result<(), Fail> {
    let heap = rt.alloc();
    let slot = load(&rt, heap, EMPTY)?;
    fill(&rt, heap, &slot, &mut [b'.'; 34])?;
    fill(&rt, heap, &slot, &mut [b'.'; 40])?;
    Ok(())
}

// Performs main's four steps. It stands behind its children, so it is the last on offer.
fn make_children(rt: &impl Abort, bench: &mut Bench<'_, Tally>, going: &Going) {
    for statement in ["point", "point", "task", "task"] {
        let done = step(rt, bench, going, &mut Last);
        assert_eq!(rt; done, Ok(()), "{statement}");
    }
}

#[test]
fn turns_at_once(rt: HostRuntime) -> Result<(), Fail> {
    let heap = rt.alloc();
    let slot = load(&rt, heap, CHILDREN)?;
    let (mut bench, going) = Bench::open(heap, &Tally, slot.card(), 1)?;
    make_children(&rt, &mut bench, &going);
    let one = given(&rt, bench.take(&going, &mut First));
    let two = given(&rt, bench.take(&going, &mut First));
    let main = given(&rt, bench.take(&going, &mut First));
    assert_eq!(rt; [one.task(), two.task(), main.task()], [1, 2, 0]);
    let did = granted(&rt, bench.perform(main));
    granted(&rt, bench.hand_back(two));
    let done = granted(&rt, bench.perform(one));
    assert_eq!(rt; [did, done], [Ok(()), Ok(())]);
    let closed = ended(&rt, &mut bench, going);
    gives(&rt, &mut bench, closed, CHILDREN_SHEET);
    Ok(())
}

#[test]
fn queues(rt: HostRuntime) -> Result<(), Fail> {
    let heap = rt.alloc();
    let slot = load(&rt, heap, CHILDREN)?;
    let (mut bench, going) = Bench::open(heap, &Tally, slot.card(), 1)?;
    make_children(&rt, &mut bench, &going);
    let rd = Declared {
        reads: Level::Immediate,
        ..Declared::NOTHING
    };
    let cm = Declared {
        commutes: Level::Immediate,
        ..Declared::NOTHING
    };
    for (object, place, entry) in [
        (0, 0, Some((1, rd))),
        (0, 1, Some((0, Declared::EVERYTHING))),
        (0, 2, None),
        (1, 0, Some((1, cm))),
        (1, 1, Some((2, cm))),
        (1, 2, Some((0, Declared::EVERYTHING))),
        (1, 3, None),
        (2, 0, None),
    ] {
        let seen = bench.look(object, place).map(|e| (e.number, e.declared));
        assert_eq!(rt; seen, entry, "place {place} of object {object}");
    }
    Ok(())
}
