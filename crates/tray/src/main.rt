// Writes the name and the sheet of each card that it is given.
#![tactic(auto)]

use runner::text_sheet;
use std::io::Write;
use std::{env, fs, io};

fn print_sheet(rt: &HostRuntime, name: &str) -> io::Result<()> {
    let text = fs::read(rt, name)?;
    let sheet = text_sheet(rt.alloc(), &text)?;
    println!(rt; "{name}")?;
    rt.stdout().write_all(&sheet)
}

fn main(rt: HostRuntime) -> io::Result<()> {
    for name in env::args(&rt)?.skip(1) {
        print_sheet(&rt, name.as_str())?;
    }
    Ok(())
}
