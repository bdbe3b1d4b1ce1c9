// A step of a task.
ghost use Rattle.std.specs.Prelude.{◌≡◌, true};
ghost use Rattle.runs.specs.Events.{has_turn};
ghost use Rattle.bench.specs.Views.{bench_of};
ghost use Rattle.bench.specs.Advances.{Advances};

use crate::bench::Bench;
use crate::follow::follow;
use kinds::ValueKind;
use working::Fault;

impl<'c, K: ValueKind> Bench<'c, K> {
    // One step of a task whose turn is out. A fault counts no step.
    pub(crate) fn advance(&mut self, n: u8) -> Result<(), Fault>
        requires { has_turn n (bench_of self.old).line ≡ true }
        ensures { Advances (K.kind self.old.kind.now) n self.old result self.new }
    {
        let progress = self.tasks.step(self.kind, n).unwrap();
        follow(&mut self.line, &self.tasks, n, progress);
        self.steps += u32::from(progress.is_ok());
        progress.map(|_| ())
    }
}
