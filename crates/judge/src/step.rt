//! How a move is shown.
ghost use Rattle.std.specs.Prelude.{T};
ghost use Rattle.access.specs.Operations.{number_of, has};
ghost use Rattle.verdicts.specs.Possible.{possible as possible_on};
ghost use Rattle.verdicts.specs.Verdicts.{Origin};
ghost use Rattle.judge.specs.Grants.{doing};
ghost use Rattle.judge.specs.Regimes.{meaning_of, grants_of};
ghost use Rattle.judge.specs.Moved.{moved, ShownAs, LowestOf};

use crate::grant::lowest_giver;
use crate::movement::Move;
use crate::moves::Moves;
use crate::regime::Regime;
use access::operation::Operation;
use access::operation_set::OperationSet;
use access::policy::Policy;

/// One step of a shown activity: an interaction, and its origin: 0 where the policy allows it, else the lowest grant that
/// gives it.
#[derive(Clone, Copy, Debug, PartialEq, Eq)]
pub struct Step {
    pub subject: u16,
    pub target: u16,
    pub operation: Operation,
    // An origin is told as a number, 0 for the policy itself, in reports and in the definition `Origin`.
    pub origin: u8,
}

impl<P: Policy> Regime<'_, P> {
    /// Where a possible interaction comes from.
    fn origin(&self, s: u16, t: u16, operation: Operation) -> u8
        requires { T (has (possible_on (meaning_of P.Policy.meaning self.now) (grants_of self.now) s t) (number_of operation)) }
        ensures { Origin (meaning_of P.Policy.meaning self.now) (grants_of self.now) (doing s t (number_of operation)) result }
    {
        let policy = self.policy;
        let own = policy.written(s, t).and(policy.permitted(s, t));
        if own.has(operation) {
            return 0;
        }
        lowest_giver(self.grants, s, t, operation).unwrap()
    }

    /// The step of the lowest operation of a set that is possible on a pair.
    fn lowest(&self, s: u16, t: u16, among: OperationSet) -> Option<Step>
        ensures { LowestOf (meaning_of P.Policy.meaning self.now) (grants_of self.now) s t among.bits result }
    {
        let operation = among.and(self.possible(s, t)).lowest()?;
        Some(Step {
            subject: s,
            target: t,
            operation,
            origin: self.origin(s, t, operation),
        })
    }

    /// The step that shows a move, if some legal run makes it: by the giver's lowest operation, or by the taker's where the
    /// giver has none.
    pub fn show(&self, chosen: Move) -> Option<Step>
        ensures { ShownAs (meaning_of P.Policy.meaning self.now) (grants_of self.now) (moved chosen) result }
    {
        match chosen {
            Move::Transition(c, d) => self.lowest(c, d, OperationSet::transition()),
            Move::Transfer(g, k) => {
                let given = self.lowest(g, k, OperationSet::write_like());
                let taken = self.lowest(k, g, OperationSet::read_like());
                given.or(taken)
            }
            Move::Contact(s, t) => self.lowest(s, t, OperationSet::all()),
        }
    }
}

impl<P: Policy> Moves<'_, P> {
    /// The step that shows a move of the regime, if some legal run makes it.
    pub fn show(&self, chosen: Move) -> Option<Step>
        ensures { ShownAs (meaning_of P.Policy.meaning self.now.regime) (grants_of self.now.regime) (moved chosen) result }
    {
        self.regime.show(chosen)
    }
}
