//! What grants give at most, by subject and by target.
ghost use Rattle.std.specs.Prelude.{◌≡◌, ℕ, true};
ghost use Rattle.access.specs.Contexts.{inside, both_inside};
ghost use Rattle.verdicts.specs.Possible.{granted, possible as possible_on};
ghost use Rattle.judge.specs.Grants.{standing};
ghost use Rattle.judge.specs.Regimes.{meaning_of, grants_of};
ghost use Rattle.judge.specs.Contextual.{value_of};
ghost use Rattle.judge.specs.Done.{allowed as allowed_on};
ghost use Rattle.judge.specs.Outlines.{offered, offered_by, Holds, KeptOf};

use crate::by_context::ByContext;
use crate::grant::{Grant, granted_on};
use crate::regime::Regime;
use access::operation_set::OperationSet;
use access::policy::Policy;

/// What a number's grant gives a context, on any target.
fn gives_to(entry: &Option<Grant>, s: u16) -> OperationSet
    ensures { result.bits ≡ offered_by (λ g. g.subjects s) entry.now }
{
    match entry {
        Some(grant) if grant.subjects.has(s) => grant.operations,
        _ => OperationSet::none(),
    }
}

/// What a number's grant gives on a context, to any subject.
fn gives_on(entry: &Option<Grant>, t: u16) -> OperationSet
    ensures { result.bits ≡ offered_by (λ g. g.targets t) entry.now }
{
    match entry {
        Some(grant) if grant.targets.has(t) => grant.operations,
        _ => OperationSet::none(),
    }
}

/// What the grants give a context at most, whatever the target.
fn granted_to(grants: &[Option<Grant>; 32], s: u16) -> OperationSet
    ensures { result.bits ≡ offered (λ g. g.subjects s) (standing grants.now 0) }
{
    grants.iter().fold(
        OperationSet::none(),
        |all, entry| all.or(gives_to(entry, s)),
    )
}

/// What the grants give on a context at most, whatever the subject.
fn granted_on_any(grants: &[Option<Grant>; 32], t: u16) -> OperationSet
    ensures { result.bits ≡ offered (λ g. g.targets t) (standing grants.now 0) }
{
    grants.iter().fold(
        OperationSet::none(),
        |all, entry| all.or(gives_on(entry, t)),
    )
}

/// What one context can do on another: by the policy alone, and in some legal run.
#[derive(Clone, Copy)]
pub(crate) struct OnPair {
    pub(crate) allowed: OperationSet,
    pub(crate) possible: OperationSet,
}

/// A regime, with the operations that its grants give at most: to each context on any, and to any on each context.
// On most pairs these show at once that no grant gives anything more.
#[derive(Drop)]
pub(crate) struct Outlined<'a, P: Policy> {
    pub(crate) regime: &'a Regime<'a, P>,
    to: ByContext<OperationSet>,
    on: ByContext<OperationSet>,
    ghost all_to: { KeptOf (meaning_of P.Policy.meaning regime.now).contexts (λ s. offered (λ g. g.subjects s) (grants_of regime.now)) to },
    ghost all_on: { KeptOf (meaning_of P.Policy.meaning regime.now).contexts (λ t. offered (λ g. g.targets t) (grants_of regime.now)) on },
}

impl<'a, P: Policy> Outlined<'a, P> {
    pub(crate) fn new(regime: &'a Regime<'a, P>) -> Outlined<'a, P>
        ensures { result.regime.now ≡ regime.now }
    {
        let n = regime.policy.contexts();
        let none = OperationSet::none();
        Outlined {
            regime,
            to: ByContext::of(n, none, |s| granted_to(regime.grants, s)),
            on: ByContext::of(n, none, |t| granted_on_any(regime.grants, t)),
        }
    }

    /// What the grants give at most on a pair of contexts.
    fn at_most(&self, s: u16, t: u16) -> OperationSet
        ensures { both_inside (meaning_of P.Policy.meaning self.now.regime.now).contexts s t ≡ true → Holds result.bits (granted (grants_of self.now.regime.now) s t) }
    {
        self.to.at(s).and(*self.on.at(t))
    }

    /// What `s` can do on `t`. The policy is asked once for what is written, and once for what is permitted.
    // The grants come last, where something is permitted that is not written, and some grant might give it.
    pub(crate) fn on_pair(&self, s: u16, t: u16) -> OnPair
        ensures allowed { result.allowed.bits ≡ allowed_on (meaning_of P.Policy.meaning self.now.regime.now) s t }
        ensures possible { result.possible.bits ≡ possible_on (meaning_of P.Policy.meaning self.now.regime.now) (grants_of self.now.regime.now) s t }
    {
        let permitted = self.regime.policy.permitted(s, t);
        let written = self.regime.policy.written(s, t);
        let allowed = written.and(permitted);
        let left = permitted.without(written);
        if left.and(self.at_most(s, t)).is_empty() {
            return OnPair {
                allowed,
                possible: allowed,
            };
        }
        OnPair {
            allowed,
            possible: permitted.and(written.or(granted_on(self.regime.grants, s, t))),
        }
    }
}
