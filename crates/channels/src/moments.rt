// What is noted of a tick.
pub const CHANNELS: usize = 8;

// A bench makes at most so many tasks.
pub const TASKS: usize = 64;

// A channel at a tick.
#[derive(Clone, Copy)]
pub enum Cell {
    Waits,
    Begins(u8),
    GoesOn(u8),
}

impl Cell {
    // The task whose turn is out.
    pub fn task(self) -> Option<u8> {
        match self {
            Cell::Waits => None,
            Cell::Begins(task) | Cell::GoesOn(task) => Some(task),
        }
    }
}

// A set of task numbers.
#[derive(Clone, Copy)]
pub struct TaskSet {
    has: [bool; TASKS],
}

impl TaskSet {
    pub const EMPTY: TaskSet = TaskSet {
        has: [false; TASKS],
    };

    pub fn insert(&mut self, task: u8) {
        if let Some(has) = self.has.get_mut(task as usize) {
            *has = true;
        }
    }

    pub fn remove(&mut self, task: u8) {
        if let Some(has) = self.has.get_mut(task as usize) {
            *has = false;
        }
    }

    // The member at a place, from the least.
    pub fn nth(&self, place: usize) -> Option<u8> {
        (0..TASKS as u8)
            .filter(|task| self.has[*task as usize])
            .nth(place)
    }
}

// What each channel does, the tasks whose answers the channels that wait are waiting for, and the tasks that stand
// behind them.
#[derive(Clone, Copy)]
pub struct Moment {
    pub channels: [Cell; CHANNELS],
    pub awaited: TaskSet,
    pub behind: TaskSet,
}

impl Moment {
    // Where a channel waits, every task that is offered has its turn out, so the others in the queues stand behind.
    pub fn new(channels: [Cell; CHANNELS], queued: TaskSet) -> Moment {
        let mut awaited = TaskSet::EMPTY;
        let mut behind = TaskSet::EMPTY;
        if channels.iter().any(|cell| cell.task().is_none()) {
            behind = queued;
            for cell in channels {
                if let Some(task) = cell.task() {
                    awaited.insert(task);
                    behind.remove(task);
                }
            }
        }
        Moment {
            channels,
            awaited,
            behind,
        }
    }
}
