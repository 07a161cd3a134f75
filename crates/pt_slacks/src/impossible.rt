//! What a ring means.

ghost use Rattle.pt_slacks.specs.Rings.{RingsAdmitNothing};

/// No slacks are enough for a graph that has a ring. So `slacks` names a ring exactly if there are no slacks with which the
/// graph can run, as long as memory suffices.
pub fn rings_admit_nothing()
    ensures { RingsAdmitNothing }
{}
