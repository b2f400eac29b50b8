//! What a layer leaves of the sets that the policy below it permits.
ghost use Rattle.std.specs.Prelude.{◌≡◌, ℕ, ◌≤◌};
ghost use Rattle.layers.specs.Layers.{unless as left_unless};

use access::operation_set::OperationSet;

/// Which operations of a permitted set are left on a pair of a subject and a target.
pub trait Rule {
    ghost left: { Self → ℕ → ℕ → ℕ → ℕ };

    fn leave(&self, subject: u16, target: u16, set: OperationSet) -> OperationSet
        ensures { result.bits ≡ left self.now subject target set.bits };

    ghost no_more: { (r : Self) (s t set : ℕ) → left r s t set ≤ set };
}

/// A set without the operations of `barred`, unless a test passes.
pub(crate) fn unless(passes: bool, barred: OperationSet, set: OperationSet) -> OperationSet
    ensures { result.bits ≡ left_unless passes barred.bits set.bits }
{
    if passes { set } else { set.without(barred) }
}
