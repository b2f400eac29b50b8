//! Grants: an administrator may add and remove operations on the pairs of two sets.
ghost use Rattle.std.specs.Prelude.{◌≡◌};
ghost use Rattle.access.specs.Operations.{number_of};
ghost use Rattle.verdicts.specs.Possible.{granted};
ghost use Rattle.judge.specs.Grants.{standing, given_by, Giver};

use access::context_set::ContextSet;
use access::operation::Operation;
use access::operation_set::OperationSet;

#[derive(Clone, Copy, Debug, PartialEq, Eq)]
pub struct Grant {
    pub subjects: ContextSet,
    pub targets: ContextSet,
    pub operations: OperationSet,
}

/// What a number's grant gives on a pair. By reference, so that a number without a grant costs one test.
fn gives(entry: &Option<Grant>, s: u16, t: u16) -> OperationSet
    ensures { result.bits ≡ given_by entry.now s t }
{
    match entry {
        Some(grant) if grant.subjects.has(s) && grant.targets.has(t) => grant.operations,
        _ => OperationSet::none(),
    }
}

/// What the standing grants give on a pair.
pub fn granted_on(grants: &[Option<Grant>; 32], s: u16, t: u16) -> OperationSet
    ensures { result.bits ≡ granted (standing grants.now 0) s t }
{
    grants.iter().fold(
        OperationSet::none(),
        |all, entry| all.or(gives(entry, s, t)),
    )
}

/// The lowest number whose grant gives an operation on a pair.
pub fn lowest_giver(
    grants: &[Option<Grant>; 32],
    s: u16,
    t: u16,
    operation: Operation,
) -> Option<u8>
    ensures { Giver (standing grants.now 0) s t (number_of operation) result }
{
    let place = grants
        .iter()
        .position(|entry| gives(entry, s, t).has(operation))?;
    Some(place as u8 + 1)
}
