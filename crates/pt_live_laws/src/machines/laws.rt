//! Theorems.

ghost use Rattle.pt_live_laws.specs.Joining.Machines.{MachinesJoin};

/// If each platform's process ended without a fault and the pipes delivered in order, all together made the claims of the meaning.
pub fn machines_join()
    ensures { MachinesJoin }
{}
