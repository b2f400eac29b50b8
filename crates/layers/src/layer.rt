//! A layer over any policy.
ghost use Rattle.std.specs.Prelude.{◌≡◌};
ghost use Rattle.layers.specs.Layers.{with_rule};
ghost use Rattle.layers.specs.Layered.{rule_sound};

use crate::rule::Rule;
use access::operation_set::OperationSet;
use access::policy::Policy;
use access::refusal::Refusal;

/// A policy that permits what a rule leaves of what the one below permits.
#[derive(Drop)]
pub struct Layer<P, R> {
    below: P,
    rule: R,
}

impl<P: Policy, R: Rule> Layer<P, R> {
    // Each constructor of a layer says where its arguments went.
    pub fn over(below: P, rule: R) -> Layer<P, R>
        ensures below { result.below ≡ below }
        ensures rule { result.rule ≡ rule }
    {
        Layer { below, rule }
    }
}

impl<P: Policy, R: Rule> Policy for Layer<P, R> {
    ghost meaning = { λ l. with_rule (P.meaning l.below) (R.left l.rule) };

    ghost sound = { λ l. rule_sound (R.left l.rule) (R.no_more l.rule) (P.meaning l.below) (P.sound l.below) };

    fn contexts(&self) -> u16 {
        self.below.contexts()
    }

    fn capacity(&self) -> u32 {
        self.below.capacity()
    }

    fn written(&self, subject: u16, target: u16) -> OperationSet {
        self.below.written(subject, target)
    }

    fn permitted(&self, subject: u16, target: u16) -> OperationSet {
        let below = self.below.permitted(subject, target);
        self.rule.leave(subject, target, below)
    }

    fn set(&mut self, subject: u16, target: u16, operations: OperationSet) -> Result<(), Refusal> {
        self.below.set(subject, target, operations)
    }
}
