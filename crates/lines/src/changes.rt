// What changes the line and the queues: a line is made, a task enters, declares otherwise, or leaves.
ghost use Rattle.std.specs.Prelude.{◌≡◌, ℕ, ◌+◌, ◌<◌, ◌≤◌, false, [], ◌∷◌, length, replicate, IfOk, vec_len};
ghost use Rattle.working.specs.Tasks.{Task};
ghost use Rattle.runs.specs.Lines as Model;
ghost use Rattle.lines.specs.States.{is_finished};
ghost use Rattle.lines.specs.Stored.{queues_of};
ghost use Rattle.lines.specs.Changes.{Narrower};
ghost use Rattle.lines.specs.Lines.{object_count, state_of, declarations, line_of, Tells, But, ButBoth, Replaces, in_status, SizedAs};

use crate::line::Line;
use crate::numbered::{put_before, take_out};
use crate::queue::Queue;
use crate::queues::{enter_all, leave_all, redeclare_all, refresh};
use crate::state::State;
use crate::told::Declares;
use std::alloc::{AllocError, Global};

impl Queue {
    fn new(heap: Global) -> Result<Queue, AllocError>
        ensures { IfOk result (λ q. q.entries.items ≡ []) }
    {
        let entries = Vec::with_capacity(heap, 64)?;
        Ok(Queue { entries })
    }
}

fn empty_queues(heap: Global, count: usize) -> Result<Vec<Queue>, AllocError>
    ensures { IfOk result (λ v. (vec_len v ≡ count) × (queues_of v.items ≡ replicate count [])) }
{
    let mut queues = Vec::with_capacity(heap, count)?;
    for _ in 0..count {
        let q = Queue::new(heap)?;
        queues.push(q)?;
    }
    Ok(queues)
}

impl Line {
    // Main stands in line, with what it declares.
    pub fn new<D: Declares>(heap: Global, main: D) -> Result<Line, AllocError>
        requires { D.objects main ≤ 16 }
        ensures line { IfOk result (λ l. (t : ℕ → Task) → line_of l t ≡ in_status 0 Model.waiting t) }
        ensures tells { IfOk result (λ l. (t : ℕ → Task) → (t 0).declared ≡ D.declared main → Tells l t) }
        ensures sized { IfOk result (λ l. (object_count l ≡ D.objects main) × (l.made ≡ 1)) }
    {
        let declared = main.declarations();
        let mut order = Vec::with_capacity(heap, 64)?;
        order.push_reserved(0);
        let mut queues = empty_queues(heap, declared.len())?;
        enter_all(&mut queues, 0, 0, declared);
        let mut states = [State::Finished; 256];
        states[0] = State::Waiting;
        let mut clear = [true; 256];
        refresh(&queues, &mut clear);
        Ok(Line {
            order,
            queues,
            states,
            clear,
            made: 1,
        })
    }

    // After a step that made a child: the child enters just before its maker, and both wait.
    pub fn enter<D: Declares>(&mut self, maker: u8, child: D) -> u8
        requires room { self.old.made < 64 }
        requires live { is_finished (state_of self.old maker) ≡ false }
        requires sized { D.objects child ≡ object_count self.old }
        requires narrower { Narrower (declarations self.old maker) (D.declared child) }
        ensures number { result ≡ self.old.made }
        ensures line { (t u : ℕ → Task) → ButBoth maker result t u → line_of self.new u ≡ Model.replace maker (Model.member result Model.waiting (u result) ∷ Model.member maker Model.waiting (u maker) ∷ []) (line_of self.old t) }
        ensures tells { (t u : ℕ → Task) → ButBoth maker result t u → (u maker).declared ≡ (t maker).declared → (u result).declared ≡ D.declared child → Tells self.old t → Tells self.new u }
        ensures objects { object_count self.new ≡ object_count self.old }
        ensures made { self.new.made ≡ self.old.made + 1 }
    {
        self.mark(maker, State::Waiting);
        let n = self.made;
        put_before(&mut self.order, maker, n);
        enter_all(&mut self.queues, maker, n, child.declarations());
        self.states[n as usize] = State::Waiting;
        refresh(&self.queues, &mut self.clear);
        self.made = n + 1;
        n
    }

    // After a `with`: the task waits, with other declarations.
    pub fn redeclare<D: Declares>(&mut self, n: u8, task: D)
        requires sized { D.objects task ≡ object_count self.old }
        requires narrower { Narrower (declarations self.old n) (D.declared task) }
        ensures line { Replaces n (in_status n Model.waiting) self.old self.new }
        ensures tells { (t u : ℕ → Task) → But n t u → (u n).declared ≡ D.declared task → Tells self.old t → Tells self.new u }
        ensures sized { SizedAs self.old self.new }
    {
        self.mark(n, State::Waiting);
        redeclare_all(&mut self.queues, n, task.declarations());
        refresh(&self.queues, &mut self.clear);
    }

    // After its last step the task leaves.
    pub fn finish(&mut self, n: u8)
        ensures line { Replaces n (λ u. []) self.old self.new }
        ensures tells { (t u : ℕ → Task) → But n t u → Tells self.old t → Tells self.new u }
        ensures sized { SizedAs self.old self.new }
    {
        take_out(&mut self.order, n);
        leave_all(&mut self.queues, n);
        self.states[n as usize] = State::Finished;
        refresh(&self.queues, &mut self.clear);
    }
}
