// A timeline that a person can read: a row for each channel, and a column for each tick.
ghost use Rattle.std.specs.Prelude.{◌<◌};

use crate::moments::{CHANNELS, Cell, Moment, TaskSet};
use std::fmt;

const LEGEND: &str = "\
A number begins a turn of that task, - goes on with it, and . is a tick at which the channel waits.
It waits for the tasks below it, whose turns are out. Those \"behind\" can't go on before others do.
";

#[derive(Drop)]
pub struct Timeline<'a>(pub &'a [Moment]);

// A task's number in one letter.
fn mark(task: u8) -> char {
    char::from_digit(task.into(), 36).unwrap_or('+')
}

impl fmt::Display for Cell {
    fn fmt<W: fmt::Write>(&self, f: &mut fmt::Formatter<W>) -> fmt::Result {
        let mark = match self {
            Cell::Waits => '.',
            Cell::Begins(task) => mark(*task),
            Cell::GoesOn(_) => '-',
        };
        write!(f, "{mark}")
    }
}

// The sets of the ticks, below one another.
#[derive(Clone, Copy)]
enum Sets {
    Awaited,
    Behind,
}

impl Sets {
    fn label(self) -> &'static str {
        match self {
            Sets::Awaited => "waits for",
            Sets::Behind => "behind",
        }
    }

    fn at(self, moment: &Moment) -> &TaskSet {
        match self {
            Sets::Awaited => &moment.awaited,
            Sets::Behind => &moment.behind,
        }
    }
}

impl Timeline<'_> {
    // Each tenth tick.
    fn write_ticks<W: fmt::Write>(&self, f: &mut fmt::Formatter<W>) -> fmt::Result {
        write!(f, "tick       0")?;
        for (tick, _) in self.0.iter().enumerate() {
            if tick > 0 && tick % 10 == 0 {
                write!(f, "{tick:>10}")?;
            }
        }
        writeln!(f)
    }

    fn write_channel<W: fmt::Write>(&self, f: &mut fmt::Formatter<W>, channel: usize) -> fmt::Result
        requires { channel < 8 }
    {
        let number = channel + 1;
        write!(f, "channel {number}  ")?;
        for moment in self.0 {
            let cell = moment.channels[channel];
            write!(f, "{cell}")?;
        }
        writeln!(f)
    }

    // The member at a place of each tick's set, through the last tick that has one.
    fn write_place<W: fmt::Write>(
        &self,
        f: &mut fmt::Formatter<W>,
        sets: Sets,
        place: usize,
        last: usize,
    ) -> fmt::Result {
        let label = if place == 0 { sets.label() } else { "" };
        write!(f, "{label:<11}")?;
        for (tick, moment) in self.0.iter().enumerate() {
            if tick > last {
                break;
            }
            let mark = sets.at(moment).nth(place).map_or(' ', mark);
            write!(f, "{mark}")?;
        }
        writeln!(f)
    }

    fn write_sets<W: fmt::Write>(&self, f: &mut fmt::Formatter<W>, sets: Sets) -> fmt::Result {
        for place in 0..CHANNELS {
            let last = self
                .0
                .iter()
                .rposition(|moment| sets.at(moment).nth(place).is_some());
            if let Some(last) = last {
                self.write_place(f, sets, place, last)?;
            }
        }
        Ok(())
    }
}

impl fmt::Display for Timeline<'_> {
    fn fmt<W: fmt::Write>(&self, f: &mut fmt::Formatter<W>) -> fmt::Result {
        writeln!(f, "{LEGEND}")?;
        self.write_ticks(f)?;
        for channel in 0..CHANNELS {
            self.write_channel(f, channel)?;
        }
        self.write_sets(f, Sets::Awaited)?;
        self.write_sets(f, Sets::Behind)
    }
}
