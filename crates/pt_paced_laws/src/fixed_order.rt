//! Theorems about runs in fixed order.

ghost use Rattle.pt_paced_laws.specs.FixedOrderTheorems.{FixedOrderIsOne};

/// The visits and histories of a run in fixed order depend on the graph, its rows and the readings of its clocks alone.
pub fn fixed_order_is_one()
    ensures { FixedOrderIsOne }
{}
