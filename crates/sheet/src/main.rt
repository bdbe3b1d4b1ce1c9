// Reads a card from standard input and writes its sheet.
#![tactic(auto)]

use runner::text_sheet;
use std::io;
use std::io::{Read, Write};

// One byte more than a card may have is enough to tell that a text is too long.
const MOST_READ: u64 = 16_385;

fn main(rt: HostRuntime) -> io::Result<()> {
    let mut text = Vec::new(rt.alloc());
    rt.stdin().take(MOST_READ).read_to_end(&mut text)?;
    let sheet = text_sheet(rt.alloc(), &text)?;
    rt.stdout().write_all(&sheet)
}
