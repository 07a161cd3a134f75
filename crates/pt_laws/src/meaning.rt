//! Theorems about behaviours and the meaning.

ghost use Rattle.pt_laws.specs.MeaningTheorems.{BehavioursAgree, MeaningBehaves, MeaningIsOne, SortedIsMeaning};

/// A graph whose actors have ranks has at most one behaviour.
pub fn one_behaviour()
    ensures { BehavioursAgree }
{}

/// The parts of the meaning's firings are a behaviour.
pub fn meaning_is_a_behaviour()
    ensures { MeaningBehaves }
{}

/// There is at most one meaning.
pub fn meaning_is_unique()
    ensures { MeaningIsOne }
{}

/// A list of firings in the order of tag, rank and actor is the meaning, if its parts are a behaviour.
pub fn sorted_behaviour_is_the_meaning()
    ensures { SortedIsMeaning }
{}
