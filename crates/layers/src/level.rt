//! A layer of levels over any policy.
ghost use Rattle.std.specs.Prelude.{◌≡◌};
ghost use Rattle.layers.specs.Labels.{label_of};
ghost use Rattle.layers.specs.Layers.{with_levels, level_rule};
ghost use Rattle.layers.specs.Layered.{level_leaves_no_more};

use crate::labels::Labels;
use crate::layer::Layer;
use crate::rule::{Rule, unless};
use access::operation_set::OperationSet;
use access::policy::Policy;

/// Leaves no reading of a lower level, and no writing to a higher level or executing there.
#[derive(Clone, Copy, Debug, PartialEq, Eq)]
pub struct Levels {
    pub levels: Labels,
}

impl Rule for Levels {
    ghost left = { λ r. level_rule (label_of r.levels) };

    ghost no_more = { λ r. level_leaves_no_more (label_of r.levels) };

    fn leave(&self, subject: u16, target: u16, set: OperationSet) -> OperationSet {
        let from = self.levels.of(subject);
        let to = self.levels.of(target);
        let changing = OperationSet::write_like().or(OperationSet::execute());
        unless(
            to <= from,
            changing,
            unless(from <= to, OperationSet::read_like(), set),
        )
    }
}

/// A policy that permits what the one below permits, within the levels of its contexts.
pub type LevelLayer<P> = Layer<P, Levels>;

impl<P: Policy> Layer<P, Levels> {
    pub fn new(below: P, levels: Labels) -> LevelLayer<P>
        ensures below { result.below ≡ below }
        ensures levels { result.rule.levels ≡ levels }
        ensures meaning { ⟦<LevelLayer<P> as Policy>⟧.meaning result ≡ with_levels (P.meaning below) (label_of levels) }
    {
        Layer::over(below, Levels { levels })
    }
}
