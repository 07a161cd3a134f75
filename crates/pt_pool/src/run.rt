//! Which run a station belongs to.

use std::marker::Brand;

/// One run: its plan, its rows and its links; and for each platform's clock the readings that it had handed out when the run
/// began, and those that are fixed ahead. It has no functions.
pub trait Run {
    ghost use Rattle.std.specs.Prelude.{ℕ, List, Option};
    ghost use Rattle.pt_types.specs.declared.rows.Row.{Row};
    ghost use Rattle.pt_offsets.specs.Plans.{Parts};
    ghost use Rattle.pt_links.specs.Ends.{LinkId};

    ghost plan: { Option Parts };

    ghost rows: { ℕ → List Row };

    ghost link: { ℕ → LinkId };

    ghost began: { ℕ → Option (List ℕ) };

    ghost fixed: { ℕ → Option (ℕ → ℕ) };
}

impl Run for Brand {
    ghost use Rattle.std.specs.Prelude.{[], None};
    ghost use Rattle.pt_links.specs.Ends.{no_link};

    ghost plan = { None };

    ghost rows = { λ _. [] };

    ghost link = { λ _. no_link };

    ghost began = { λ _. None };

    ghost fixed = { λ _. None };
}
