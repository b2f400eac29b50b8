//! What stands in the way of setting a pair, of whatever policy.
ghost use Rattle.std.specs.Prelude.{◌≡◌};
ghost use Rattle.access.specs.Refusals.{answer};
ghost use Rattle.access.specs.Setting.{unfit_setting};

use crate::numbers::is_within;
use crate::operation_set::OperationSet;
use crate::refusal::Refusal;

/// Refuses a setting for its contexts, which are to be from 1 to n, or else for its operations, which are to be known. Full notes and
/// a full policy are refused for after these.
pub fn check_setting(
    n: u16,
    subject: u16,
    target: u16,
    operations: OperationSet,
) -> Result<(), Refusal>
    ensures { result ≡ answer (unfit_setting n subject target operations.bits) }
{
    if !is_within(n, subject) || !is_within(n, target) {
        Err(Refusal::ContextOutside)
    } else if operations.has_unknown() {
        Err(Refusal::UnfitOperations)
    } else {
        Ok(())
    }
}
