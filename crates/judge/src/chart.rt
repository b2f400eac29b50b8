//! The graph of an activity: its nodes are contexts at phases, and its edges the moves that some legal run makes.
ghost use Rattle.std.specs.Prelude.{◌≡◌, ◌<◌, ◌≤◌};
ghost use Rattle.access.specs.Contexts.{member};
ghost use Rattle.judge.specs.Moved.{moved};
ghost use Rattle.judge.specs.Regimes.{meaning_of};
ghost use Rattle.judge.specs.Nodes.{phase, context, move_of};
ghost use Rattle.judge.specs.Plan.{FirstInPhase};

use crate::activity::Activity;
use crate::movement::Move;
use crate::moves::Moves;
use access::context_set::ContextSet;
use access::policy::Policy;
use search::breadth_first::Graph;
use std::marker::PhantomData;

/// From which contexts to which an activity is sought, and the moves that it can be made of.
#[derive(Drop)]
pub(crate) struct Chart<'a, A: Activity, P: Policy> {
    pub(crate) moves: &'a Moves<'a, P>,
    contexts: u16,
    from: ContextSet,
    to: ContextSet,
    activity: PhantomData<A>,
    ghost counted: { contexts ≡ (meaning_of P.Policy.meaning moves.now.regime).contexts },
}

impl<'a, A: Activity, P: Policy> Chart<'a, A, P> {
    // The constructor of the struct that holds the three.
    pub(crate) fn between(
        moves: &'a Moves<'a, P>,
        from: ContextSet,
        to: ContextSet,
    ) -> Chart<'a, A, P>
        ensures moves { result.moves.now ≡ moves.now }
        ensures from { result.from ≡ from }
        ensures to { result.to ≡ to }
    {
        Chart {
            moves,
            contexts: moves.contexts(),
            from,
            to,
            activity: PhantomData,
        }
    }

    pub(crate) fn phase_of(&self, node: u16) -> usize
        ensures { result ≡ phase (meaning_of P.Policy.meaning self.now.moves.now.regime).contexts node }
    {
        usize::from(node / self.contexts)
    }

    fn context_of(&self, node: u16) -> u16
        ensures { result ≡ context (meaning_of P.Policy.meaning self.now.moves.now.regime).contexts node }
    {
        node % self.contexts + 1
    }

    /// The move by which an edge leads from one node to another.
    pub(crate) fn move_between(&self, before: u16, node: u16) -> Move
        ensures { moved result ≡ move_of A.Activity.kind (meaning_of P.Policy.meaning self.now.moves.now.regime).contexts before node }
    {
        let link = A::link(self.phase_of(node));
        link.between(self.context_of(before), self.context_of(node))
    }

    /// The first node of a phase whose context is in a set.
    fn first_at(&self, phase: usize, set: ContextSet) -> Option<u16>
        requires { phase < A.Activity.PHASES }
        ensures { FirstInPhase (meaning_of P.Policy.meaning self.now.moves.now.regime).contexts (member set) phase result }
    {
        let context = set.first_above(0)?;
        if context > self.contexts {
            return None;
        }
        Some(phase as u16 * self.contexts + context - 1)
    }
}

impl<A: Activity, P: Policy> Graph for Chart<'_, A, P> {
    ghost use Rattle.judge.specs.Charts.{problem_of, holds};

    /// The contexts of each phase; none has more than two.
    type Nodes = [ContextSet; 2];

    ghost problem = { problem_of };

    ghost holds = { holds };

    fn nodes(&self) -> u16 {
        A::PHASES as u16 * self.contexts
    }

    fn no_nodes(&self) -> [ContextSet; 2] {
        [ContextSet::none(); 2]
    }

    fn add(&self, set: &mut [ContextSet; 2], node: u16) {
        let phase = self.phase_of(node);
        // Behind the last phase there is no node.
        if phase < set.len() {
            set[phase] = set[phase].with(self.context_of(node));
        }
    }

    fn first_source(&self, reached: &[ContextSet; 2]) -> Option<u16> {
        self.first_at(0, self.from.without(reached[0]))
    }

    fn first_edge(&self, from: u16, reached: &[ContextSet; 2]) -> Option<u16> {
        let context = self.context_of(from);
        // No phase is left to go over from a number that is no node.
        for phase in self.phase_of(from)..A::PHASES {
            let next = self
                .moves
                .from(context, A::link(phase))
                .without(reached[phase]);
            if let Some(node) = self.first_at(phase, next) {
                return Some(node);
            }
        }
        None
    }

    fn target(&self, node: u16) -> bool {
        node < self.nodes() && self.to.has(self.context_of(node))
    }
}
