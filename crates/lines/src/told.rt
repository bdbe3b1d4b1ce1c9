// How the line is told what a task declares on each object: by its record, or by the declarations themselves.
ghost use Rattle.std.specs.Prelude.{◌≡◌, ℕ, ◌≤◌, List, length, refl};
ghost use Rattle.std.proofs.Common.{sym, subst};
ghost use Rattle.std.proofs.lemmas.List.{length-take-le};
ghost use Rattle.working.specs.declared.declared.Declared.{Declared};
ghost use Rattle.working.specs.Records.{declared_of};

use working::{Declared, Record};

pub trait Declares: Copy {
    ghost declared: { Self → List Declared };

    // How many objects there are.
    ghost objects: { Self → ℕ };

    fn declarations(&self) -> &[Declared]
        ensures { result.now ≡ declared self.now };

    ghost each_object: { (x : Self) → length (declared x) ≡ objects x };
}

impl<'a> Declares for &'a Record {
    ghost declared = { λ r. declared_of r.now };

    ghost objects = { λ r. r.now.objects };

    ghost each_object = { λ r. length-take-le r.now.objects r.now.declared (subst (λ (n : ℕ). r.now.objects ≤ n) (sym r.now.wide) r.now.few) };

    fn declarations(&self) -> &[Declared] {
        self.declared()
    }
}

impl<'a> Declares for &'a [Declared] {
    ghost declared = { λ ds. ds.now };

    ghost objects = { λ ds. length ds.now };

    ghost each_object = { λ ds. refl };

    fn declarations(&self) -> &[Declared] {
        *self
    }
}
