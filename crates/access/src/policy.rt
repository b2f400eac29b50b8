//! What every policy answers, and how it is set.
ghost use Rattle.std.specs.Prelude.{◌≡◌, OnErr};
ghost use Rattle.access.specs.Policy.{Meaning};
ghost use Rattle.access.specs.Sound.{Sound};
ghost use Rattle.access.specs.Refusals.{answer};
ghost use Rattle.access.specs.Setting.{setting_refusal, after_setting};

use crate::operation_set::OperationSet;
use crate::refusal::Refusal;

/// An access policy over the contexts 1 to n. For each pair of a subject and a target it has a written set of operations,
/// which `set` replaces, and a permitted set, which limits it: the policy allows an operation that is in both.
pub trait Policy {
    ghost meaning: { Self → Meaning };

    /// How many contexts there are: n.
    fn contexts(&self) -> u16
        ensures { result ≡ (meaning self.now).contexts };

    /// How many pairs can have a written set that is not empty.
    fn capacity(&self) -> u32
        ensures { result ≡ (meaning self.now).capacity };

    // A pair is two numbers here and in all that asks a policy: of a struct each call would build one and take it apart.
    fn written(&self, subject: u16, target: u16) -> OperationSet
        ensures { result.bits ≡ (meaning self.now).written subject target };

    fn permitted(&self, subject: u16, target: u16) -> OperationSet
        ensures { result.bits ≡ (meaning self.now).permitted subject target };

    /// Replaces the written set of a pair, or is refused and leaves the policy itself as it was, and not only its meaning.
    fn set(&mut self, subject: u16, target: u16, operations: OperationSet) -> Result<(), Refusal>
        ensures told { result ≡ answer (setting_refusal (meaning self.old) subject target operations.bits) }
        ensures done { meaning self.new ≡ after_setting (meaning self.old) subject target operations.bits }
        ensures kept { OnErr result (self.new ≡ self.old) };

    ghost sound: { (p : Self) → Sound (meaning p) };
}
