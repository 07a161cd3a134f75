//! Theorems on rows that come later.

ghost use Rattle.pt_live_laws.specs.Growth.Growing.{HistoriesGrow, RowsGrow, TurnsGrow, VisitsGrow};

/// Rows that are seen after a turn do not change the turn.
pub fn turns_grow()
    ensures { TurnsGrow }
{}

/// Rows of a platform that are seen after its last reading leave its history legal.
pub fn histories_grow()
    ensures { HistoriesGrow }
{}

/// Rows that the visited platform sees after a visit do not change the visit.
pub fn visits_grow()
    ensures { VisitsGrow }
{}

/// The rows of a run with one more row that may come next are rows of a run.
pub fn rows_grow()
    ensures { RowsGrow }
{}
