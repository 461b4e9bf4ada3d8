// How checked numbers compare and hash.
ghost use Rattle.std.specs.Prelude.{◌≡◌, ◌↔◌, Option, Some, IsTrue, IsNone, IsSome, fold};
ghost use Rattle.std.specs.Option.{option_eq};
ghost use Rattle.std.specs.Ordering.{on};
ghost use Rattle.std.specs.declared.cmp.Ordering.{Ordering};
ghost use Rattle.std.specs.declared.cmp.Ordering.TheVariants.{Equal};
ghost use Rattle.std.specs.Cmp.{on_po};
ghost use Rattle.std.proofs.Common.{rules};
ghost use Rattle.mongo_num.specs.declared.checked.Checked.{Checked};
ghost use Rattle.mongo_num.specs.Checked.{checked_cmp, checked_order};

use crate::checked::Checked;
use std::cmp::Ordering;
use std::hash::{Hash, Hasher};

/// Two failed numbers are equal, and a failed and a held one are not ordered.
impl<T: PartialOrd> PartialOrd for Checked<T> {
    ghost partial_cmp = { on (λ c. c.0) (checked_cmp T.partial_cmp) };

    ghost laws = { on_po (λ c. c.0) (checked_order T.PartialOrd.laws) };

    fn partial_cmp(&self, other: &Checked<T>) -> Option<Ordering>
        ensures compares { result ≡ checked_cmp T.partial_cmp self.now.0 other.now.0 }
        ensures two_failed { IsNone self.now.0 → IsNone other.now.0 → result ≡ Some Equal }
        ensures failed_beside_held { IsNone self.now.0 → IsSome other.now.0 → IsNone result }
        ensures held_beside_failed { IsSome self.now.0 → IsNone other.now.0 → IsNone result }
        ensures equal_where_eq { (result ≡ Some Equal) ↔ IsTrue (option_eq T.eq self.now.0 other.now.0) }
    {
        match (&self.0, &other.0) {
            (Some(x), Some(y)) => x.partial_cmp(y),
            (None, None) => Some(Ordering::Equal),
            _ => None,
        }
    }
}

/// The `Option` that is held. Equal numbers hash alike.
impl<T: Hash> Hash for Checked<T> {
    ghost hash_input = { λ c. ⟦<Option<T> as Hash>⟧.hash_input c.0 };

    ghost respects_eq = { Prim.search rules };

    fn hash<H: Hasher>(&self, state: &mut H)
        ensures writes { state.new ≡ fold H.write state.old (⟦<Option<T> as Hash>⟧.hash_input self.now.0) }
        ensures alike { (other : Checked T) → IsTrue (option_eq T.eq self.now.0 other.0) →
            state.new ≡ fold H.write state.old (⟦<Option<T> as Hash>⟧.hash_input other.0) }
    {
        self.0.hash(state);
    }
}
