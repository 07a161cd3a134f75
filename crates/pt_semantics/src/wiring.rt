//! The wires and links of a lawful graph.

ghost use Rattle.pt_semantics.specs.LawfulGraphs.{LawfulGraphsAreWired};

/// In a lawful graph each input is fed at most once, wires stay on their platform, and links lead from senders to
/// receivers. The theorems about meanings and histories need this. Each graph that `read_graph` gives is lawful.
pub fn lawful_graphs_are_wired()
    ensures { LawfulGraphsAreWired }
{}
