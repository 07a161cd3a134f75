//! Theorems.

ghost use Rattle.pt_fixed_order.specs.Growing.MoreRows.{BeforeGrows};

/// What is true before a visit still is, over the rows with one that arrives.
pub fn before_grows()
    ensures { BeforeGrows }
{}
