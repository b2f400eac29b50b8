//! The way that a search found, and the steps that show it.
ghost use Rattle.std.specs.Prelude.{◌≡◌, ◌+◌, ◌<◌, ◌≤◌, true, length};
ghost use Rattle.judge.specs.Regimes.{meaning_of, grants_of};
ghost use Rattle.judge.specs.Nodes.{move_of, slot as slot_of};
ghost use Rattle.judge.specs.Traced.{Shows, SameFrom};
ghost use Rattle.judge.specs.Charts.{problem_of, FoundOn};

use crate::activity::Activity;
use crate::chart::Chart;
use crate::step::Step;
use access::operation::Operation;
use access::policy::Policy;
use search::breadth_first::Place;
use search::lent::List;

/// A way that a search found on a chart: the parents lead from the place `last` back to a source.
#[derive(Drop)]
pub(crate) struct Way<'a, A: Activity, P: Policy> {
    pub(crate) chart: &'a Chart<'a, A, P>,
    pub(crate) places: &'a [Place],
    pub(crate) last: usize,
    ghost found: { ∥ FoundOn chart.now places.now last ∥₁ },
    ghost room: { last < length places.now },
}

/// Where the move from depth `left` on is shown, of `all` moves: those from `turn` on are of the last phase, and go in
/// reverse where information comes back by them.
fn slot(back: bool, turn: usize, all: usize, left: usize) -> usize
    requires { (turn ≤ all) × (left < all) }
    ensures at { result ≡ slot_of back turn all left }
    ensures below { result < all }
{
    if back && turn <= left {
        turn + (all - left - 1)
    } else {
        left
    }
}

/// Makes room in a list for so many steps more, which are written over later.
fn reserve(steps: &mut List<'_, Step>, count: usize)
    requires { steps.old.len + count ≤ length steps.old.items.now }
    ensures lender { steps.new.items.ghost_name ≡ steps.old.items.ghost_name }
    ensures grown { steps.new.len ≡ steps.old.len + count }
    ensures sized { length steps.new.items.now ≡ length steps.old.items.now }
    ensures rest { SameFrom steps.new.len steps.old.items.now steps.new.items.now }
{
    let blank = Step {
        subject: 0,
        target: 0,
        operation: Operation::Read,
        origin: 0,
    };
    for _ in 0..count {
        // There is room, by what is required.
        let _ = steps.push(blank);
    }
}

impl<A: Activity, P: Policy> Chart<'_, A, P> {
    /// The step of the edge between two nodes.
    fn step(&self, before: u16, node: u16) -> Step
        requires { (problem_of self.now).edge before node ≡ true }
        ensures { Shows (meaning_of P.Policy.meaning self.now.moves.now.regime) (grants_of self.now.moves.now.regime) (move_of A.Activity.kind (meaning_of P.Policy.meaning self.now.moves.now.regime).contexts before node) result }
    {
        self.moves.show(self.move_between(before, node)).unwrap()
    }
}

impl<A: Activity, P: Policy> Way<'_, A, P> {
    ghost use Rattle.judge.specs.Ways.{depth_of, TurnedOn, TracedOn};

    /// How many steps the way has.
    fn depth(&self) -> usize
        ensures { result ≡ depth_of self.now }
    {
        usize::from(self.places[self.last].depth)
    }

    /// The depth from which on the way is in the last phase.
    fn turn(&self) -> usize
        ensures { TurnedOn self.now result }
    {
        let mut here = self.last;
        for left in (0..self.depth()).rev() {
            if self.chart.phase_of(self.places[here].node) + 1 != A::PHASES {
                return left + 1;
            }
            here = usize::from(self.places[here].parent);
        }
        0
    }

    /// Writes the steps into an empty list, in working order.
    fn trace(&self, steps: &mut List<'_, Step>)
        requires empty { steps.old.len ≡ 0 }
        requires fits { depth_of self.now ≤ length steps.old.items.now }
        ensures lender { steps.new.items.ghost_name ≡ steps.old.items.ghost_name }
        ensures shown { TracedOn self.now A.Activity.BACKWARDS steps.new.items.now }
        ensures sized { length steps.new.items.now ≡ length steps.old.items.now }
        ensures rest { SameFrom (depth_of self.now) steps.old.items.now steps.new.items.now }
    {
        let turn = self.turn();
        let all = self.depth();
        reserve(steps, all);
        let mut here = self.last;
        for left in (0..all).rev() {
            let parent = usize::from(self.places[here].parent);
            let step = self
                .chart
                .step(self.places[parent].node, self.places[here].node);
            // There is such a step: `reserve` made it.
            let _ = steps.put(slot(A::BACKWARDS, turn, all, left), step);
            here = parent;
        }
    }

    /// Writes the steps in front of the lent ones, and says how many they are.
    pub(crate) fn write(&self, steps: &mut [Step]) -> usize
        requires fits { depth_of self.now ≤ length steps.old }
        ensures all { result ≡ depth_of self.now }
        ensures shown { TracedOn self.now A.Activity.BACKWARDS steps.new }
        ensures rest { SameFrom (depth_of self.now) steps.old steps.new }
    {
        let mut shown = List::over(steps);
        self.trace(&mut shown);
        self.depth()
    }
}
