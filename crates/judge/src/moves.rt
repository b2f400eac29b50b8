//! The moves that legal runs make.
ghost use Rattle.std.specs.Prelude.{◌≡◌, ℕ, ◌≤◌, ◌&&◌, ◌||◌};
ghost use Rattle.access.specs.Contexts.{inside, member};
ghost use Rattle.verdicts.specs.Possible.{makeable};
ghost use Rattle.judge.specs.Regimes.{meaning_of, grants_of};
ghost use Rattle.judge.specs.Moved.{linked};
ghost use Rattle.judge.specs.Contextual.{value_of, IsSetOf};
ghost use Rattle.judge.specs.Done.{reads_alone, DoneBy, Given, Gotten};

use crate::by_context::ByContext;
use crate::doings::{Doings, doings_of, passing};
use crate::movement::Link;
use crate::regime::Regime;
use access::context_set::ContextSet;
use access::policy::Policy;

/// A regime, with the moves that its legal runs make, worked out once from what is possible on each pair.
#[derive(Drop)]
pub struct Moves<'a, P: Policy> {
    pub(crate) regime: Regime<'a, P>,
    doings: ByContext<Doings>,
    giving: ByContext<ContextSet>,
    getting: ByContext<ContextSet>,
    ghost done: { (s : ℕ) → DoneBy (meaning_of P.Policy.meaning regime) (grants_of regime) s (value_of doings s) },
    ghost given: { Given (meaning_of P.Policy.meaning regime) (grants_of regime) giving },
    ghost gotten: { Gotten (meaning_of P.Policy.meaning regime) (grants_of regime) getting },
}

/// The contexts that a context can give information to: it writes to them, or they read from it.
fn given_by(contexts: u16, doings: &ByContext<Doings>, giver: u16) -> ContextSet
    requires { contexts ≤ 256 }
    ensures { IsSetOf (λ d. inside contexts d && (member (value_of doings.now giver).writing d || member (value_of doings.now d).reading giver)) result }
{
    let writing = doings.at(giver).writing;
    passing(
        contexts,
        |taker| writing.has(taker) || doings.at(taker).reading.has(giver),
    )
}

/// The contexts that a context can get information from.
fn got_by(contexts: u16, giving: &ByContext<ContextSet>, taker: u16) -> ContextSet
    requires { contexts ≤ 256 }
    ensures { IsSetOf (λ d. inside contexts d && member (value_of giving.now d) taker) result }
{
    passing(contexts, |giver| giving.at(giver).has(taker))
}

impl<'a, P: Policy> Moves<'a, P> {
    pub fn of(regime: Regime<'a, P>) -> Moves<'a, P>
        ensures { result.regime ≡ regime.entry }
    {
        let n = regime.policy.contexts();
        let none = ContextSet::none();
        let doings = doings_of(&regime);
        let giving = ByContext::of(n, none, |giver| given_by(n, &doings, giver));
        let getting = ByContext::of(n, none, |taker| got_by(n, &giving, taker));
        Moves {
            regime,
            doings,
            giving,
            getting,
        }
    }

    /// How many contexts there are.
    pub fn contexts(&self) -> u16
        ensures { result ≡ (meaning_of P.Policy.meaning self.now.regime).contexts }
    {
        self.regime.policy.contexts()
    }

    /// The contexts to which a context leads, by a move that some legal run makes.
    pub fn from(&self, context: u16, link: Link) -> ContextSet
        ensures { IsSetOf (λ d. makeable (meaning_of P.Policy.meaning self.now.regime) (grants_of self.now.regime) (linked link context d)) result }
    {
        match link {
            Link::Becoming => self.doings.at(context).becoming,
            Link::Giving => *self.giving.at(context),
            Link::Getting => *self.getting.at(context),
            Link::Doing => self.doings.at(context).doing,
        }
    }

    /// The contexts that the policy alone, grants left aside, lets a context read.
    pub fn read_alone(&self, context: u16) -> ContextSet
        ensures { IsSetOf (reads_alone (meaning_of P.Policy.meaning self.now.regime) context) result }
    {
        self.doings.at(context).reading_alone
    }
}
