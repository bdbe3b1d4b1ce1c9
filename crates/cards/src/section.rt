// A declaration section.
ghost use Rattle.std.specs.Prelude.{ℕ, ◌<◌, vec_len, slice_index_or};
ghost use Rattle.cards.specs.Sections.{no_declaration};

use crate::lines::Declaration;

// The declarations of a `task` or a `with`, each with a pointer from p0 to p3.
#[derive(Drop)]
pub struct Section {
    pub lines: Vec<Declaration>,
    ghost pointers: { (i : ℕ) → i < vec_len lines → (slice_index_or lines.items i no_declaration).pointer < 4 },
}
