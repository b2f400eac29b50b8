//! Consistency: a search from each source.
ghost use Rattle.std.specs.Prelude.{◌≡◌, ℕ, ◌-◌, ◌≤◌, true, length, replicate};
ghost use Rattle.access.specs.Contexts.{member};
ghost use Rattle.verdicts.specs.Activities.{consistency, Forbids};
ghost use Rattle.verdicts.specs.Laws.{AllInside};
ghost use Rattle.judge.specs.Regimes.{meaning_of, grants_of};
ghost use Rattle.judge.specs.Contextual.{IsSetOf};
ghost use Rattle.judge.specs.Found.{Measured, Searched};
ghost use Rattle.judge.specs.Sought.{SearchRoom, Suffices};
ghost use Rattle.judge.specs.Judged.{Tells};
ghost use Rattle.judge.specs.Flows.{is_unread, From, Best, nearer_of};

use crate::flow::Flow;
use crate::measure::measure;
use crate::moves::Moves;
use crate::seek::seek;
use crate::step::Step;
use crate::verdict::Verdict;
use access::context_set::ContextSet;
use access::policy::Policy;
use search::breadth_first::Place;
use search::lent::Cleared;

/// A source, and in how many steps a flow leads from it.
#[derive(Clone, Copy, Debug, PartialEq, Eq)]
pub(crate) struct Near {
    pub(crate) source: u16,
    pub(crate) steps: usize,
}

/// The flows from a context of one set to one of another that the policy alone does not let it read.
#[derive(Drop)]
pub(crate) struct Flows<'a, P: Policy> {
    pub(crate) moves: &'a Moves<'a, P>,
    pub(crate) from: ContextSet,
    pub(crate) to: ContextSet,
}

/// The nearer of the best so far and one more source.
fn nearer(best: Option<Near>, a: u16, found: Option<usize>) -> Option<Near>
    ensures { result ≡ nearer_of best a found }
{
    match (best, found) {
        (best, None) => best,
        (Some(near), Some(steps)) if near.steps <= steps => Some(near),
        (_, Some(steps)) => Some(Near { source: a, steps }),
    }
}

impl<P: Policy> Flows<'_, P> {
    /// The ends of `a`: the contexts to which no flow may lead from it.
    fn ends(&self, a: u16) -> ContextSet
        ensures { IsSetOf (is_unread (meaning_of P.Policy.meaning self.now.moves.now.regime) (member self.now.to) a) result }
    {
        self.to.without(self.moves.read_alone(a))
    }

    /// In how many steps a flow leads from `a` to one of them.
    // Here and below, that `a` is a context and the memory suffices stands at each function: both speak of this policy's contexts.
    fn measure_from(&self, a: u16, ticks: &mut [u8], places: &mut [Place]) -> Option<usize>
        requires first { 1 ≤ a }
        requires last { a ≤ (meaning_of P.Policy.meaning self.now.moves.now.regime).contexts }
        requires room { SearchRoom 2 (meaning_of P.Policy.meaning self.now.moves.now.regime).contexts ticks.old places.old }
        ensures { Measured (meaning_of P.Policy.meaning self.now.moves.now.regime) (grants_of self.now.moves.now.regime) (From (meaning_of P.Policy.meaning self.now.moves.now.regime) (member self.now.to) a) result }
    {
        let ends = self.ends(a);
        // From here nothing is left to forbid.
        if ends.is_empty() {
            return None;
        }
        let one = ContextSet::none().with(a);
        measure::<Flow, P>(self.moves, one, ends, ticks, places).unwrap()
    }

    /// The best of the sources, with one more looked at.
    fn visit(
        &self,
        best: Option<Near>,
        a: u16,
        ticks: &mut [u8],
        places: &mut [Place],
    ) -> Option<Near>
        requires first { 1 ≤ a }
        requires last { a ≤ (meaning_of P.Policy.meaning self.now.moves.now.regime).contexts }
        requires room { SearchRoom 2 (meaning_of P.Policy.meaning self.now.moves.now.regime).contexts ticks.old places.old }
        requires so { Best (meaning_of P.Policy.meaning self.now.moves.now.regime) (grants_of self.now.moves.now.regime) (member self.now.from) (member self.now.to) (a - 1) best }
        ensures { Best (meaning_of P.Policy.meaning self.now.moves.now.regime) (grants_of self.now.moves.now.regime) (member self.now.from) (member self.now.to) a result }
    {
        if self.from.has(a) {
            nearer(best, a, self.measure_from(a, ticks, places))
        } else {
            best
        }
    }

    /// The source from which a flow is shortest.
    fn nearest(&self, ticks: &mut [u8], places: &mut [Place]) -> Option<Near>
        requires { SearchRoom 2 (meaning_of P.Policy.meaning self.now.moves.now.regime).contexts ticks.old places.old }
        ensures { Best (meaning_of P.Policy.meaning self.now.moves.now.regime) (grants_of self.now.moves.now.regime) (member self.now.from) (member self.now.to) (meaning_of P.Policy.meaning self.now.moves.now.regime).contexts result }
    {
        let mut best = None;
        for a in 1..=self.moves.contexts() {
            best = self.visit(best, a, ticks, places);
        }
        best
    }

    /// Shows a shortest flow from `a` to one of the ends.
    fn show_from(
        &self,
        a: u16,
        ticks: &mut [u8],
        places: &mut [Place],
        steps: &mut [Step],
    ) -> Option<usize>
        requires first { 1 ≤ a }
        requires last { a ≤ (meaning_of P.Policy.meaning self.now.moves.now.regime).contexts }
        requires fits { Suffices 2 (meaning_of P.Policy.meaning self.now.moves.now.regime).contexts ticks.old places.old steps.old }
        ensures shown { Searched (meaning_of P.Policy.meaning self.now.moves.now.regime) (grants_of self.now.moves.now.regime) (From (meaning_of P.Policy.meaning self.now.moves.now.regime) (member self.now.to) a) true steps.old steps.new result }
        ensures ticks { ticks.new ≡ replicate (length ticks.old) 0 }
    {
        let one = ContextSet::none().with(a);
        seek::<Flow, P>(self.moves, one, self.ends(a), ticks, places, steps).unwrap()
    }

    /// Judges consistency.
    pub(crate) fn judge(
        &self,
        ticks: &mut [u8],
        places: &mut [Place],
        steps: &mut [Step],
    ) -> Verdict
        requires fits { Suffices 2 (meaning_of P.Policy.meaning self.now.moves.now.regime).contexts ticks.old places.old steps.old }
        requires from { AllInside (meaning_of P.Policy.meaning self.now.moves.now.regime).contexts (member self.now.from) }
        requires to { AllInside (meaning_of P.Policy.meaning self.now.moves.now.regime).contexts (member self.now.to) }
        ensures told { Tells (meaning_of P.Policy.meaning self.now.moves.now.regime) (grants_of self.now.moves.now.regime) (Forbids (meaning_of P.Policy.meaning self.now.moves.now.regime) (consistency (member self.now.from) (member self.now.to))) true steps.old steps.new result }
        ensures ticks { ticks.new ≡ replicate (length ticks.old) 0 }
    {
        match self.nearest(ticks, places) {
            None => {
                // Where nothing was searched, the ticks are still as they were lent.
                let _cleared = Cleared::over(ticks);
                Verdict::Guaranteed
            }
            Some(near) => {
                let steps = self.show_from(near.source, ticks, places, steps).unwrap();
                Verdict::Broken { steps }
            }
        }
    }
}
