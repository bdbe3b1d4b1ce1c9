// Works a card with eight channels that answer after different delays. Prints when each channel worked on which task,
// when it waited and for whom, and then the card's sheet.
#![tactic(auto)]

mod delays;
mod desk;
mod moments;
mod timeline;
mod worked;

use crate::delays::Delays;
use crate::desk::LAST_TICK;
use crate::timeline::Timeline;
use crate::worked::{Worked, work};
use cards::{Card, KindName};
use kinds::{Flags, Tally, ValueKind};
use loading::Slot;
use std::io::Write;
use std::{env, fs, io};
use written::load_card;

const CARD: &str = "workshop.card";

// Of the delays, unless another seed is given.
const SEED: u32 = 221;

// The seed that the program is given.
fn given_seed(rt: &HostRuntime) -> io::Result<u32> {
    for word in env::args(rt)?.skip(1) {
        if let Ok(seed) = word.as_str().parse::<u32>() {
            return Ok(seed);
        }
    }
    Ok(SEED)
}

// Works the card, and prints the timeline and the sheet.
fn show<K: ValueKind>(rt: &HostRuntime, kind: &K, card: &Card, seed: u32) -> io::Result<()> {
    let Worked { moments, sheet } = work(rt.alloc(), kind, card, Delays::new(seed))?;
    println!(rt; "{}", Timeline(&moments))?;
    match sheet {
        Some(sheet) => rt.stdout().write_all(&sheet),
        None => println!(rt; "The run is not settled after {LAST_TICK} ticks."),
    }
}

fn main(rt: HostRuntime) -> io::Result<()> {
    let heap = rt.alloc();
    let seed = given_seed(&rt)?;
    let text = fs::read(&rt, CARD)?;
    let mut slot = Slot::new(heap)?;
    if load_card(&mut slot, heap, &text).is_err() {
        return println!(rt; "{CARD} is no card.");
    }
    let card = slot.card();
    match card.kind() {
        KindName::Tally => show(&rt, &Tally, card, seed),
        KindName::Flags => show(&rt, &Flags, card, seed),
    }
}
