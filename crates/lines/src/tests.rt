// What each event comes to in each state.
use crate::*;
use working::{Fault, FaultKind};

#[test]
fn every_state_and_event(rt: HostRuntime) {
    let fault = Fault {
        kind: FaultKind::Read,
        line: 1,
    };
    for (state, deeds) in [
        (State::Waiting, [Deed::Give, Deed::Refuse, Deed::Refuse]),
        (State::Out, [Deed::Refuse, Deed::Step, Deed::Return]),
        (State::Stuck(fault), [Deed::Refuse; 3]),
        (State::Finished, [Deed::Refuse; 3]),
    ] {
        let came = [Event::Take, Event::Perform, Event::HandBack].map(|e| decide(state, e));
        assert_eq!(rt; came, deeds, "in {state:?}");
    }
}
