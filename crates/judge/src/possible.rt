//! What is possible on a pair in some legal run.
ghost use Rattle.std.specs.Prelude.{◌≡◌};
ghost use Rattle.verdicts.specs.Possible.{possible as possible_on};
ghost use Rattle.judge.specs.Regimes.{meaning_of, grants_of};

use crate::grant::granted_on;
use crate::regime::Regime;
use access::operation_set::OperationSet;
use access::policy::Policy;

impl<P: Policy> Regime<'_, P> {
    /// The operations that `s` can do on `t` in some legal run.
    pub fn possible(&self, s: u16, t: u16) -> OperationSet
        ensures { result.bits ≡ possible_on (meaning_of P.Policy.meaning self.now) (grants_of self.now) s t }
    {
        self.policy.permitted(s, t).and(self.policy.written(s, t).or(granted_on(self.grants, s, t)))
    }
}
