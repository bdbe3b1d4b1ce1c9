// Measures code, so that a card can be held to its limits whatever its nesting.
ghost use Rattle.std.specs.Prelude.{◌≡◌, ◌+◌, ◌*◌, ◌≤◌, min, max, true, length};
ghost use Rattle.cards.specs.Literals.{is_literal, block_literals, statement_literals};
ghost use Rattle.cards.specs.Measures.{Measures, MeasuresBlock, MeasuresStatement};
ghost use Rattle.cards.specs.Trees.{block_of, statement_of};

use crate::extent::Extent;
use crate::section::Section;
use crate::tree::{Block, Statement};

// One past the most steps, tasks, depth, lines and objects of a card.
const STEPS: u32 = 1_000_001;

const TASKS: u32 = 65;

const DEPTH: u32 = 9;

const LINES: u32 = 257;

// So many rounds of what takes `once`, up to a cap.
fn rounds(count: u8, once: u32, cap: u32) -> u32
    requires { once ≤ 1_000_002 }
    ensures { result ≡ min (count * once) cap }
{
    (u32::from(count) * once).min(cap)
}

impl Extent {
    // Written out: `Default` is not derived for a struct with ghost fields.
    fn nothing() -> Extent
        ensures { Measures 0 0 0 0 0 result }
    {
        Extent {
            steps: 0,
            tasks: 0,
            depth: 0,
            lines: 0,
            objects: 0,
        }
    }

    // A statement of one step, in a number of lines, that needs a number of objects.
    fn single(lines: u32, objects: u32) -> Extent
        requires lines { lines ≤ 1000 }
        requires objects { objects ≤ 256 }
        ensures { Measures 1 0 0 lines objects result }
    {
        Extent {
            steps: 1,
            tasks: 0,
            depth: 0,
            lines: lines.min(LINES),
            objects,
        }
    }

    // A `set`, whose literal is in range by its type.
    fn setting(literal: i16) -> Extent
        ensures measures { Measures 1 0 0 1 0 result }
        ensures literal { is_literal literal ≡ true }
    {
        let _ = literal;
        Extent::single(1, 0)
    }

    // Statements one after the other.
    fn then(self, next: Extent) -> Extent
        ensures { Measures (self.steps + next.steps) (self.tasks + next.tasks) (max self.depth next.depth) (self.lines + next.lines) (max self.objects next.objects) result }
    {
        Extent {
            steps: (self.steps + next.steps).min(STEPS),
            tasks: (self.tasks + next.tasks).min(TASKS),
            depth: self.depth.max(next.depth),
            lines: (self.lines + next.lines).min(LINES),
            objects: self.objects.max(next.objects),
        }
    }

    // One of two blocks.
    fn either(self, other: Extent) -> Extent
        ensures { Measures (max self.steps other.steps) (max self.tasks other.tasks) (max self.depth other.depth) (self.lines + other.lines) (max self.objects other.objects) result }
    {
        Extent {
            steps: self.steps.max(other.steps),
            tasks: self.tasks.max(other.tasks),
            depth: self.depth.max(other.depth),
            lines: (self.lines + other.lines).min(LINES),
            objects: self.objects.max(other.objects),
        }
    }

    // A block inside a statement that adds steps, tasks and lines.
    fn within(self, steps: u32, tasks: u32, lines: u32) -> Extent
        requires few { steps ≤ 1000 }
        requires tasks { tasks ≤ 1000 }
        requires lines { lines ≤ 1000 }
        ensures { Measures (steps + self.steps) (tasks + self.tasks) (1 + self.depth) (lines + self.lines) self.objects result }
    {
        Extent {
            steps: (steps + self.steps).min(STEPS),
            tasks: (tasks + self.tasks).min(TASKS),
            depth: (1 + self.depth).min(DEPTH),
            lines: (lines + self.lines).min(LINES),
            objects: self.objects,
        }
    }

    // Rounds of a block.
    fn times(self, count: u8) -> Extent
        ensures { Measures (count * (1 + self.steps)) (count * self.tasks) self.depth self.lines self.objects result }
    {
        Extent {
            steps: rounds(count, 1 + self.steps, STEPS),
            tasks: rounds(count, self.tasks, TASKS),
            depth: self.depth,
            lines: self.lines,
            objects: self.objects,
        }
    }
}

impl Section {
    // How many lines it has, up to one past the most that a card may have.
    fn extent(&self) -> u32
        ensures value { result ≡ min (length self.now.lines.items) 257 }
        ensures bound { result ≤ 257 }
    {
        self.lines.len().min(LINES as usize) as u32
    }
}

#[cycle(block_extent_statement_extent)]
#[tactic(auto, unfolding(crate::specs::Bounds::step_bound, crate::specs::Bounds::task_bound, crate::specs::Bounds::depth, crate::specs::Bounds::line_count, crate::specs::Bounds::object_bound, crate::specs::Literals::block_literals))]
pub(crate) fn block_extent(block: &Block) -> Extent
    ensures measures { MeasuresBlock (block_of block.now) result }
    ensures literals { block_literals (block_of block.now) ≡ true }
{
    match block {
        Block::End => Extent::nothing(),
        Block::Then(step) => statement_extent(&step.statement).then(block_extent(&step.rest)),
    }
}

#[cycle(block_extent_statement_extent)]
#[tactic(auto, unfolding(crate::specs::Bounds::statement_steps, crate::specs::Bounds::statement_tasks, crate::specs::Bounds::statement_depth, crate::specs::Bounds::statement_lines, crate::specs::Bounds::statement_objects, crate::specs::Literals::statement_literals))]
fn statement_extent(statement: &Statement) -> Extent
    ensures measures { MeasuresStatement (statement_of statement.now) result }
    ensures literals { statement_literals (statement_of statement.now) ≡ true }
{
    match statement {
        Statement::Set { literal, .. } => Extent::setting(*literal),
        Statement::Point { object, .. } => Extent::single(1, 1 + u32::from(*object)),
        Statement::Add { .. }
        | Statement::Alias { .. }
        | Statement::Read { .. }
        | Statement::Write { .. }
        | Statement::Join { .. } => Extent::single(1, 0),
        Statement::If { first, .. } => block_extent(first).within(1, 0, 2),
        Statement::IfElse { first, second, .. } => block_extent(first)
            .either(block_extent(second))
            .within(1, 0, 3),
        Statement::Repeat { count, body } => block_extent(body).times(*count).within(1, 0, 2),
        Statement::Task { section, body } => block_extent(body).within(2, 1, 3 + section.extent()),
        Statement::With { section } => Extent::single(2 + section.extent(), 0),
    }
}
