// What can be read of the tasks.
ghost use Rattle.std.specs.Prelude.{◌≡◌, ◌≤◌, length, slice_index_or};
ghost use Rattle.std.specs.Option.{option_map};
ghost use Rattle.std.specs.List.{slice_get};
ghost use Rattle.working.specs.Tasks.{nothing};
ghost use Rattle.working.specs.Works.{ranks_of};
ghost use Rattle.tasks.specs.Views.{store_of, tasks_of, declared_by};

use crate::tasks::Tasks;
use working::{Declared, Place};

impl<'c> Tasks<'c> {
    // How many tasks were made.
    pub fn count(&self) -> u8
        ensures number { result ≡ length (tasks_of self.now) }
        ensures most { result ≤ 64 }
    {
        self.tasks.len() as u8
    }

    // The word in each object.
    pub fn words(&self) -> &[u32]
        ensures { result.now ≡ store_of self.now }
    {
        &self.store
    }

    // Where a task stands, or none where no task has the number.
    pub fn place(&self, n: u8) -> Option<Place>
        ensures { option_map ranks_of result ≡ option_map (λ t. t.place) (slice_get (tasks_of self.now) n) }
    {
        Some(self.tasks.get(usize::from(n))?.work.place())
    }

    // What a task declares on each object, or nothing where no task has the number.
    pub fn declared(&self, n: u8) -> &[Declared]
        ensures { result.now ≡ declared_by (slice_get (tasks_of self.now) n) }
    {
        match self.tasks.get(usize::from(n)) {
            Some(task) => task.own.declared(),
            None => &[],
        }
    }

    // What a task declares on an object.
    pub fn declares(&self, n: u8, object: u8) -> Declared
        ensures { result ≡ slice_index_or (declared_by (slice_get (tasks_of self.now) n)) object nothing }
    {
        let declared = self.declared(n).get(usize::from(object));
        declared.copied().unwrap_or(Declared::NOTHING)
    }
}
