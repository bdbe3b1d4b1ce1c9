// How a task begins and steps.
ghost use Rattle.std.specs.Prelude.{◌≡◌, ◌≤◌, length};
ghost use Rattle.cards.specs.Trees.{block_of};
ghost use Rattle.working.specs.Records.{declared_of};
ghost use Rattle.working.specs.Works.{work_of};
ghost use Rattle.working.specs.Steps.{model_of, fresh_task, Answered, ChildSized, Keeps};

use crate::effect::Effect;
use crate::fault::Fault;
use crate::frame::Rounds;
use crate::moves::Head;
use crate::record::Record;
use crate::task::Task;
use crate::work::{Frames, Fresh, Work};
use kinds::ValueKind;

// The task went on, with other declarations or not, is finished, or made a child.
#[derive(Clone, Copy)]
pub enum Stepped<'c> {
    Went,
    Amended,
    Finished,
    Made(Record, Fresh<'c>),
}

impl<'c> Task<'c> {
    // A task that begins.
    pub fn begin(own: Record, fresh: Fresh<'c>, frames: Frames<'c>) -> Task<'c>
        ensures task { model_of result ≡ fresh_task own fresh.entry }
        ensures own { result.own ≡ own }
        ensures work { work_of result.work ≡ block_of fresh.entry.body.now }
        ensures place { result.work.place ≡ fresh.entry.place }
        ensures children { result.work.children ≡ 0 }
    {
        Task {
            own,
            work: Work::begin(fresh, frames),
        }
    }

    // One step, on the objects' words. All tasks share these, so no task's type can tell that there are enough.
    //
    // Always in its caller's body: what it answers has room for a child's record, and a call clears and copies that room
    // in every step.
    #[inline(always)]
    pub fn step<K: ValueKind>(&mut self, kind: &K, store: &mut [u32]) -> Result<Stepped<'c>, Fault>
        requires { self.old.own.objects ≤ length store.old }
        ensures answer { Answered (K.ValueKind.kind kind.now) self.old store.old result self.new store.new }
        ensures objects { self.new.own.objects ≡ self.old.own.objects }
        ensures kept { Keeps (declared_of self.old.own) result (declared_of self.new.own) }
        ensures sized { ChildSized self.old.own.objects result }
    {
        match self.work.head() {
            Head::Nothing => Ok(Stepped::Finished),
            Head::Round(rounds) => {
                self.work.round(rounds);
                Ok(Stepped::Went)
            }
            Head::Next(step) => {
                let effect = self.own.act(kind, store, step)?;
                match effect {
                    Effect::Passes => {
                        self.work.pass(&step.rest);
                        Ok(Stepped::Went)
                    }
                    Effect::Amends => {
                        self.work.pass(&step.rest);
                        Ok(Stepped::Amended)
                    }
                    Effect::Enters(arm) => {
                        self.work.enter(arm, &step.rest);
                        Ok(Stepped::Went)
                    }
                    Effect::Repeats(left, body) => {
                        self.work.round(Rounds {
                            line: step.line,
                            left,
                            body,
                            rest: &step.rest,
                        });
                        Ok(Stepped::Went)
                    }
                    Effect::Makes(section, body) => {
                        let child = self.own.child(section)?;
                        let fresh = self.work.spawn(body, &step.rest);
                        Ok(Stepped::Made(child, fresh))
                    }
                }
            }
        }
    }
}
