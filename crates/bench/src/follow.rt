// The line after a step.
ghost use Rattle.std.specs.Prelude.{◌≡◌, true};
ghost use Rattle.tasks.specs.Views.{tasks_of};
ghost use Rattle.lines.specs.declared.state.State.TheVariants.{Waiting};
ghost use Rattle.lines.specs.Lines.{state_of};
ghost use Rattle.bench.specs.Follows.{FitsLine, Followed};

use lines::Line;
use tasks::{Progress, Tasks};
use working::Fault;

// Tells the line what a step of task n came to, where the tasks are as the step left them.
pub(crate) fn follow(line: &mut Line, tasks: &Tasks, n: u8, progress: Result<Progress, Fault>)
    requires { FitsLine line.old (tasks_of tasks.now) n progress }
    ensures { Followed (tasks_of tasks.now) n progress line.old line.new }
{
    match progress {
        Err(fault) => line.stick(n, fault),
        Ok(Progress::Went) => line.wait(n),
        Ok(Progress::Amended) => line.redeclare(n, tasks.declared(n)),
        Ok(Progress::Finished) => line.finish(n),
        Ok(Progress::Made(child)) => {
            line.enter(n, tasks.declared(child));
        }
    }
}

// The same for a task that waits. A step that changes no declarations leaves the line as it is; it tells whether
// that is so.
pub(crate) fn follow_waiting(
    line: &mut Line,
    tasks: &Tasks,
    n: u8,
    progress: Result<Progress, Fault>,
) -> bool
    requires fits { FitsLine line.old (tasks_of tasks.now) n progress }
    requires waits { state_of line.old n ≡ Waiting }
    ensures followed { Followed (tasks_of tasks.now) n progress line.old line.new }
    ensures stays { result ≡ true → line.new ≡ line.old }
{
    let stays = matches!(progress, Ok(Progress::Went));
    if !stays {
        follow(line, tasks, n, progress);
    }
    stays
}
