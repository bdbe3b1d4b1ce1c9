// A task's state, and what an event comes to in it.
ghost use Rattle.std.specs.Prelude.{◌≡◌};
ghost use Rattle.lines.specs.States as States;

use working::Fault;

// A task that was never made counts as finished; a stuck one has its fault.
#[derive(Clone, Copy, Debug, PartialEq, Eq)]
pub enum State {
    Finished,
    Waiting,
    Out,
    Stuck(Fault),
}

#[derive(Clone, Copy, Debug, PartialEq, Eq)]
pub enum Event {
    Take,
    Perform,
    HandBack,
}

#[derive(Clone, Copy, Debug, PartialEq, Eq)]
pub enum Deed {
    Refuse,
    Give,
    Step,
    Return,
}

// One match for all that can happen, with a word for each outcome, so that states and events can be read as one table.
pub fn decide(state: State, event: Event) -> Deed
    ensures { result ≡ States.deed state event }
{
    match (state, event) {
        (State::Waiting, Event::Take) => Deed::Give,
        (State::Out, Event::Perform) => Deed::Step,
        (State::Out, Event::HandBack) => Deed::Return,
        (State::Finished | State::Waiting | State::Out | State::Stuck(_), _) => Deed::Refuse,
    }
}

impl State {
    pub(crate) fn is_finished(self) -> bool
        ensures { result ≡ States.is_finished self }
    {
        matches!(self, State::Finished)
    }

    pub(crate) fn is_waiting(self) -> bool
        ensures { result ≡ States.is_waiting self }
    {
        matches!(self, State::Waiting)
    }

    pub(crate) fn is_out(self) -> bool
        ensures { result ≡ States.is_out self }
    {
        matches!(self, State::Out)
    }

    pub(crate) fn is_stuck(self) -> bool
        ensures { result ≡ States.is_stuck self }
    {
        matches!(self, State::Stuck(_))
    }
}
