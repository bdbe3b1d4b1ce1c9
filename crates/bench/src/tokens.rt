// What a program is handed: the states of a run, and turns.
ghost use Rattle.std.specs.Prelude.{◌≡◌};

// The state of a run that goes on. To close the run is to give it up.
#[derive(Drop)]
pub struct Going {
    pub(crate) run: u16,
}

// The state of a run that is closed. Its sheet is written for it. Of one shape with `Going`: two types, so that neither
// is taken for the other.
#[derive(Drop)]
pub struct Closed {
    pub(crate) run: u16,
}

// The right and the duty to make one step of a task. It can be performed or handed back, and in no other way let go.
pub struct Turn {
    pub(crate) run: u16,
    pub(crate) task: u8,
}

impl Turn {
    // The number of its task.
    pub fn task(&self) -> u8
        ensures { result ≡ self.now.task }
    {
        self.task
    }
}
