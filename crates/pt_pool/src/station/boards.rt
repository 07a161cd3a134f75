//! Which board each platform of a run has.

use std::marker::Brand;

/// Names the board of each platform in one run, by the platform's number. It has no functions: only contracts speak of it.
pub trait Boards {
    ghost use Rattle.std.specs.Prelude.{ℕ};
    ghost use Rattle.atomic_table.specs.Seated.{TableId};

    ghost table: { ℕ → TableId };
}

impl Boards for Brand {
    ghost use Rattle.pt_links.specs.Ends.{no_link};

    ghost table = { λ _. no_link };
}
