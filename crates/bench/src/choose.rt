// The choice of a scheduler.
ghost use Rattle.std.specs.Prelude.{◌≡◌, ◌<◌, length};
ghost use Rattle.runs.specs.Choices.{chosen};

use schedulers::Scheduler;

// The number that a scheduler chooses from what is offered.
#[tactic(auto, using(crate::proofs::Picks::picks_some, crate::proofs::Picks::place_is, crate::proofs::Picks::place_below))]
pub(crate) fn choose<S: Scheduler>(scheduler: &mut S, offered: &[u8]) -> u8
    requires { 0 < length offered.now }
    ensures number { result ≡ chosen (S.choice scheduler.old) offered.now }
    ensures state { S.next scheduler.old offered.now scheduler.new }
{
    let place = scheduler.pick(offered).unwrap();
    offered[place]
}
