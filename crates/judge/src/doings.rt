//! What each context can do.
ghost use Rattle.std.specs.Prelude.{◌≡◌, ℕ, Bool, ◌≤◌, not, ◌&&◌, ◌||◌, ◌==◌, bit_and};
ghost use Rattle.access.specs.Contexts.{inside, member};
ghost use Rattle.judge.specs.Regimes.{meaning_of, grants_of};
ghost use Rattle.judge.specs.Contextual.{value_of, IsSetOf};
ghost use Rattle.judge.specs.Done.{IsNothing, DoneBy};

use crate::by_context::ByContext;
use crate::outline::{OnPair, Outlined};
use crate::regime::Regime;
use access::context_set::ContextSet;
use access::operation_set::OperationSet;
use access::policy::Policy;

/// What a context can do in some legal run: which contexts it can become, write to, read from, and do anything on; and which the
/// policy alone lets it read.
#[derive(Clone, Copy)]
pub(crate) struct Doings {
    pub(crate) becoming: ContextSet,
    pub(crate) writing: ContextSet,
    pub(crate) reading: ContextSet,
    pub(crate) reading_alone: ContextSet,
    pub(crate) doing: ContextSet,
}

impl Doings {
    fn nothing() -> Doings
        ensures { IsNothing result }
    {
        let none = ContextSet::none();
        Doings {
            becoming: none,
            writing: none,
            reading: none,
            reading_alone: none,
            doing: none,
        }
    }
}

/// A set with one context more, if that passed.
fn with_if(set: ContextSet, context: u16, passed: bool) -> ContextSet
    ensures { (d : ℕ) → member result d ≡ ((passed && (inside 256 context && d == context)) || member set d) }
{
    if passed { set.with(context) } else { set }
}

/// The contexts from 1 to `contexts` that pass a test.
pub(crate) fn passing<F: Fn(u16) -> bool>(contexts: u16, test: F) -> ContextSet
    requires few { contexts ≤ 256 }
    requires callable { F.IsAlwaysCallable test }
    ensures { (p : ℕ → Bool) → ((c : ℕ) (b : Bool) → F.post test c b → b ≡ p c) → IsSetOf (λ d. inside contexts d && p d) result }
{
    let mut set = ContextSet::none();
    for index in 0..contexts {
        set = with_if(set, index + 1, test(index + 1));
    }
    set
}

/// The contexts on which some operation of a set is possible.
fn possible(contexts: u16, pairs: &ByContext<OnPair>, set: OperationSet) -> ContextSet
    requires { contexts ≤ 256 }
    ensures { IsSetOf (λ d. inside contexts d && not (bit_and set.bits (value_of pairs.now d).possible.bits == 0)) result }
{
    passing(contexts, |t| !set.and(pairs.at(t).possible).is_empty())
}

/// The contexts on which the policy alone allows some operation of a set.
fn allowed(contexts: u16, pairs: &ByContext<OnPair>, set: OperationSet) -> ContextSet
    requires { contexts ≤ 256 }
    ensures { IsSetOf (λ d. inside contexts d && not (bit_and set.bits (value_of pairs.now d).allowed.bits == 0)) result }
{
    passing(contexts, |t| !set.and(pairs.at(t).allowed).is_empty())
}

impl<P: Policy> Outlined<'_, P> {
    /// What a context can do. Each pair is asked once.
    fn doings(&self, s: u16) -> Doings
        ensures { DoneBy (meaning_of P.Policy.meaning self.now.regime.now) (grants_of self.now.regime.now) s result }
    {
        let n = self.regime.policy.contexts();
        let nothing = OnPair {
            allowed: OperationSet::none(),
            possible: OperationSet::none(),
        };
        let pairs = ByContext::of(n, nothing, |t| self.on_pair(s, t));
        Doings {
            becoming: possible(n, &pairs, OperationSet::transition()),
            writing: possible(n, &pairs, OperationSet::write_like()),
            reading: possible(n, &pairs, OperationSet::read_like()),
            reading_alone: allowed(n, &pairs, OperationSet::read_like()),
            doing: possible(n, &pairs, OperationSet::all()),
        }
    }
}

/// What each context can do.
pub(crate) fn doings_of<P: Policy>(regime: &Regime<'_, P>) -> ByContext<Doings>
    ensures { (s : ℕ) → DoneBy (meaning_of P.Policy.meaning regime.now) (grants_of regime.now) s (value_of result s) }
{
    let outlined = Outlined::new(regime);
    ByContext::of(
        regime.policy.contexts(),
        Doings::nothing(),
        |s| outlined.doings(s),
    )
}
