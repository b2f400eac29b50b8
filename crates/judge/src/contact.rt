//! Domains: a look at each context.
ghost use Rattle.std.specs.Prelude.{◌≡◌, ℕ, ◌<◌, ◌≤◌, false, ◌&&◌, length, MatchOption, Some, None, slice_set};
ghost use Rattle.access.specs.Contexts.{member};
ghost use Rattle.verdicts.specs.Activities.{contact, domain, apart, Forbids};
ghost use Rattle.verdicts.specs.Possible.{makeable};
ghost use Rattle.judge.specs.Regimes.{meaning_of, grants_of};
ghost use Rattle.judge.specs.Contextual.{IsSetOf};
ghost use Rattle.judge.specs.Judged.{Tells};
ghost use Rattle.judge.specs.Crossings.{AcrossFrom, AcrossAll};

use crate::movement::{Link, Move};
use crate::moves::Moves;
use crate::step::Step;
use crate::verdict::Verdict;
use access::context_set::ContextSet;
use access::policy::Policy;
use search::lent::List;

/// The contacts across the edge of a set: one end is a member, and the other is none.
#[derive(Drop)]
pub(crate) struct Domain<'a, P: Policy> {
    pub(crate) moves: &'a Moves<'a, P>,
    pub(crate) set: ContextSet,
}

/// The first answer that is a step, of those at the contexts 1 to n.
fn first_step<F: Fn(u16) -> Option<Step>>(contexts: u16, look: F) -> Option<Step>
    requires { F.IsAlwaysCallable look }
    ensures { MatchOption result ((c : ℕ) → 1 ≤ c → c ≤ contexts → F.post look c None) (λ step. (c : ℕ) × (1 ≤ c) × F.post look c (Some step) × ((d : ℕ) → 1 ≤ d → d < c → F.post look d None)) }
{
    // No plainer by `find_map` on the range: its contract speaks of a run of the iterator, and what it passed over would need a
    // longer answer than this loop, which needs none.
    for context in 1..=contexts {
        if let Some(step) = look(context) {
            return Some(step);
        }
    }
    None
}

/// Writes a step in front of the lent ones, and says how many are written.
fn write(step: Step, steps: &mut [Step]) -> usize
    requires { 1 ≤ length steps.old }
    ensures count { result ≡ 1 }
    ensures written { steps.new ≡ slice_set steps.old 0 step }
{
    let mut shown = List::over(steps);
    // There is room.
    let _ = shown.push(step);
    shown.len()
}

impl<P: Policy> Domain<'_, P> {
    /// The contexts on which `s` can do something across the edge.
    fn across(&self, s: u16) -> ContextSet
        ensures { IsSetOf (λ t. makeable (meaning_of P.Policy.meaning self.now.moves.now.regime) (grants_of self.now.moves.now.regime) (contact s t) && apart (member self.now.set) s t) result }
    {
        let reached = self.moves.from(s, Link::Doing);
        if self.set.has(s) {
            reached.without(self.set)
        } else {
            reached.and(self.set)
        }
    }

    /// The step by which `s` does something on the first of them.
    fn crossing_from(&self, s: u16) -> Option<Step>
        ensures { AcrossFrom (meaning_of P.Policy.meaning self.now.moves.now.regime) (grants_of self.now.moves.now.regime) (member self.now.set) s (meaning_of P.Policy.meaning self.now.moves.now.regime).contexts result }
    {
        let t = self.across(s).first_above(0)?;
        self.moves.show(Move::Contact(s, t))
    }

    /// The first such step of all.
    fn crossing(&self) -> Option<Step>
        ensures { AcrossAll (meaning_of P.Policy.meaning self.now.moves.now.regime) (grants_of self.now.moves.now.regime) (member self.now.set) (meaning_of P.Policy.meaning self.now.moves.now.regime).contexts result }
    {
        first_step(self.moves.contexts(), |s| self.crossing_from(s))
    }

    /// Judges a domain.
    pub(crate) fn judge(&self, steps: &mut [Step]) -> Verdict
        requires { (meaning_of P.Policy.meaning self.now.moves.now.regime).contexts ≤ length steps.old }
        ensures { Tells (meaning_of P.Policy.meaning self.now.moves.now.regime) (grants_of self.now.moves.now.regime) (Forbids (meaning_of P.Policy.meaning self.now.moves.now.regime) (domain (member self.now.set))) false steps.old steps.new result }
    {
        match self.crossing() {
            Some(step) => Verdict::Broken {
                steps: write(step, steps),
            },
            None => Verdict::Guaranteed,
        }
    }
}
