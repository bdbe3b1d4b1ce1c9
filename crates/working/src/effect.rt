// What a statement does to its task's record and the objects.
ghost use Rattle.std.specs.Prelude.{◌≡◌, ◌≤◌, length, slice_index};
ghost use Rattle.cards.specs.Trees.{statement_of};
ghost use Rattle.working.specs.Effects.{Does, Inside, Kept};
ghost use Rattle.working.specs.Records.{declared_of};

use crate::fault::Fault;
use crate::record::Record;
use cards::{Access, Block, Local, Section, Statement, Step};
use kinds::ValueKind;

// How the work goes on: it passes to the rest, with other declarations or not, enters a block, repeats one, or makes a
// child of one, with a section. The child's record is made by the step: here each effect would hold room for one, which is
// cleared and copied in every step.
#[derive(Clone, Copy)]
pub(crate) enum Effect<'c> {
    Passes,
    Amends,
    Enters(&'c Block),
    Repeats(u8, &'c Block),
    Makes(&'c Section, &'c Block),
}

impl Record {
    fn word(&self, i: Local) -> u32
        ensures { result ≡ slice_index self.now.words i.n }
    {
        self.words[i.n as usize]
    }

    // Does the statement of a step, but for the work. There are words for all objects, as `Task::step` says.
    pub(crate) fn act<'c, K: ValueKind>(
        &mut self,
        kind: &K,
        store: &mut [u32],
        step: &'c Step,
    ) -> Result<Effect<'c>, Fault>
        requires { self.old.objects ≤ length store.old }
        ensures does { Does (K.ValueKind.kind kind.now) self.old store.old step.now.line (statement_of step.now.statement) result self.new store.new }
        ensures inside { Inside (statement_of step.now.statement) result }
        ensures objects { self.new.objects ≡ self.old.objects }
        ensures kept { Kept (declared_of self.old) result (declared_of self.new) }
    {
        match &step.statement {
            Statement::Set { word, literal } => {
                self.words[word.n as usize] = kind.literal(*literal);
                Ok(Effect::Passes)
            }
            Statement::Add { left, right } => {
                self.words[left.n as usize] = kind.add(self.word(*left), self.word(*right));
                Ok(Effect::Passes)
            }
            Statement::Point { pointer, object } => {
                self.pointers[pointer.n as usize] = *object;
                Ok(Effect::Passes)
            }
            Statement::Alias { left, right } => {
                self.pointers[left.n as usize] = self.pointers[right.n as usize];
                Ok(Effect::Passes)
            }
            Statement::Read { word, pointer } => {
                let o = self.reach(*pointer, Access::Rd, step.line)?;
                self.words[word.n as usize] = store[o];
                Ok(Effect::Passes)
            }
            Statement::Write { pointer, word } => {
                let o = self.reach(*pointer, Access::Wr, step.line)?;
                store[o] = self.word(*word);
                Ok(Effect::Passes)
            }
            Statement::Join { pointer, word } => {
                let o = self.reach(*pointer, Access::Cm, step.line)?;
                store[o] = kind.join(store[o], self.word(*word));
                Ok(Effect::Passes)
            }
            Statement::If { left, right, first } => {
                if kind.less(self.word(*left), self.word(*right)) {
                    Ok(Effect::Enters(first))
                } else {
                    Ok(Effect::Passes)
                }
            }
            Statement::IfElse {
                left,
                right,
                first,
                second,
            } => {
                if kind.less(self.word(*left), self.word(*right)) {
                    Ok(Effect::Enters(first))
                } else {
                    Ok(Effect::Enters(second))
                }
            }
            Statement::Repeat { count, body } => Ok(Effect::Repeats(*count, body)),
            Statement::Task { section, body } => Ok(Effect::Makes(section, body)),
            Statement::With { section } => {
                self.amend(section)?;
                Ok(Effect::Amends)
            }
        }
    }
}
