//! What takes the firings of the meaning as they happen.

ghost use Rattle.std.specs.Prelude.{◌≡◌, ◌++◌, ◌∷◌, [], List, OnOk};
ghost use Rattle.pt_types.specs.declared.firing.ActorFiring.{ActorFiring};

use pt_tags::Memory;
use pt_types::ActorFiring;

/// Takes firings, one after another.
pub trait Receiver {
    /// Whether one receiver became the other when it took these firings, in order, and no others.
    ghost took: { Self → Self → List ActorFiring → Type 0 };

    /// Takes the next firing. Fails if memory runs out.
    fn take(&mut self, firing: &ActorFiring) -> Result<(), Memory>
        ensures { (start : Self) (xs : List ActorFiring) → took start self.old xs →
            OnOk result (took start self.new (xs ++ firing.now ∷ [])) };
}
