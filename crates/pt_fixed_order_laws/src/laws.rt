//! Theorems on visits in fixed order.

ghost use Rattle.pt_fixed_order_laws.specs.Fronts.{FrontsAreByLink};
ghost use Rattle.pt_fixed_order_laws.specs.SoFar.{LinksAreFree, LinksStayFree, VisitsEnd, VisitsGoOn};
ghost use Rattle.pt_fixed_order_laws.specs.Linking.{FinishedIsLinked, MatchedIsLinked};
ghost use Rattle.pt_fixed_order_laws.specs.Whole.{FixedOrderIsLegal};

/// A visit that does not end the run: the visits so far and this one are visits in fixed order.
pub fn visits_go_on()
    ensures { VisitsGoOn }
{}

/// A visit that ends the run: the visits so far and this one are those of a whole run.
pub fn visits_end()
    ensures { VisitsEnd }
{}

/// When a platform is visited, nothing that it sent is still on the way, so each of its links has room for 64 messages.
pub fn links_are_free()
    ensures { LinksAreFree }
{}

/// The same is true at the next visit, if no message was late.
pub fn links_stay_free()
    ensures { LinksStayFree }
{}

/// If all platforms are finished and none took a late message, matched histories are linked.
pub fn matched_is_linked()
    ensures { MatchedIsLinked }
{}

/// The kept histories of a whole run in fixed order are legal and matched; if all platforms are finished they are linked.
pub fn fixed_order_is_legal()
    ensures { FixedOrderIsLegal }
{}

/// If all platforms are finished, legal and matched histories are linked: none of them has a late message.
pub fn linked_if_finished()
    ensures { FinishedIsLinked }
{}

/// If messages are sorted by link, a front that reaches one link has all messages of each link before it.
pub fn fronts_are_by_link()
    ensures { FrontsAreByLink }
{}
