//! Breadth-first search over lent memory: the end of a shortest walk, or a proof that no walk leads there.

ghost use Rattle.std.specs.Prelude.{◌≡◌, ℕ, ◌+◌, ◌<◌, Bool, true, false, ◌||◌, ◌==◌, Some, length, replicate, slice_index};
ghost use Rattle.search.specs.Problem.{Problem, First, outside, of_node, leads};
ghost use Rattle.search.specs.Queue.{at, Sound, Waiting, Stepped, Born, Pushed, Lent, Ticked, Ended, Kept, Answered};

use crate::lent::{Cleared, List};

/// A node that was reached: from which place, and by how many edges.
#[derive(Clone, Copy, Debug, Default, PartialEq, Eq)]
pub struct Place {
    pub node: u16,
    // An index into the places, which lie in lent memory; at depth 0 it means nothing, and an `Option` would say that again.
    pub parent: u16,
    pub depth: u16,
}

/// The lent memory is shorter than the graph has nodes.
#[derive(Clone, Copy, Debug, PartialEq, Eq)]
pub struct TooShort;

/// A graph on the numbers below `nodes()`.
pub trait Graph {
    /// A set of nodes, in the form in which the graph looks for nodes outside it.
    type Nodes: Drop;

    ghost problem: { Self → Problem };

    /// Whether a set has a node.
    ghost holds: { Self → Self.Nodes → ℕ → Bool };

    fn nodes(&self) -> u16
        ensures { result ≡ (problem self.now).nodes };

    fn no_nodes(&self) -> Self::Nodes
        ensures { (v : ℕ) → v < (problem self.now).nodes → holds self.now result v ≡ false };

    /// Adds a node to a set.
    fn add(&self, set: &mut Self::Nodes, node: u16)
        ensures { (v : ℕ) → v < (problem self.now).nodes → holds self.now set.new v ≡ (v == node || holds self.now set.old v) };

    /// The first source outside a set.
    // A search asks for the next node that it has not reached, and not about each: a graph may know it without a look at the others.
    fn first_source(&self, reached: &Self::Nodes) -> Option<u16>
        ensures { First (outside (holds self.now reached.now) (problem self.now).source) 0 (problem self.now).nodes result };

    /// The first node outside a set to which an edge leads; none leads from a number that is no node.
    fn first_edge(&self, from: u16, reached: &Self::Nodes) -> Option<u16>
        ensures { First (outside (holds self.now reached.now) (leads (problem self.now) (Some from))) 0 (problem self.now).nodes result };

    /// Whether a number is a node where a walk should end.
    fn target(&self, node: u16) -> bool
        ensures { result ≡ of_node (problem self.now) (problem self.now).target node };
}

/// Pushes a place of a node that has none, and says whether the node is a target.
// No struct holds the graph, the ticks and the places: once a guard lies in a struct, it is not proved what it leaves in the lent memory.
fn visit<G: Graph>(
    graph: &G,
    ticks: &mut Cleared<'_>,
    reached: &mut G::Nodes,
    places: &mut List<'_, Place>,
    place: Place,
) -> bool
    requires ready { Waiting (G.problem graph.now) ticks.old places.old place.depth }
    requires sound { Sound (G.problem graph.now) places.old.items.now places.old.len place }
    requires fresh { slice_index ticks.old.bytes.now place.node ≡ 0 }
    requires same { Ticked (G.problem graph.now) ticks.old (G.holds graph.now reached.old) }
    ensures lent { Lent ticks.old ticks.new places.old places.new }
    ensures stepped { Stepped (G.problem graph.now) ticks.old ticks.new places.old places.new place.depth result }
    ensures same { Ticked (G.problem graph.now) ticks.new (G.holds graph.now reached.new) }
    ensures pushed { Pushed places.old places.new place }
{
    ticks.tick(place.node as usize);
    graph.add(reached, place.node);
    // There is room: no node is pushed twice.
    let _ = places.push(place);
    graph.target(place.node)
}

/// The first node outside a set to which an edge leads from a node, or the first source where none is given.
// No closure for the two, which `visit_all` would take: its contract would have to say for any closure what that finds.
fn next_node<G: Graph>(graph: &G, from: Option<u16>, reached: &G::Nodes) -> Option<u16>
    ensures { First (outside (G.holds graph.now reached.now) (leads (G.problem graph.now) from)) 0 (G.problem graph.now).nodes result }
{
    match from {
        Some(node) => graph.first_edge(node, reached),
        None => graph.first_source(reached),
    }
}

/// Visits the nodes outside a set to which an edge leads from a node, or the sources where none is given, until one is a target.
fn visit_all<G: Graph>(
    graph: &G,
    ticks: &mut Cleared<'_>,
    reached: &mut G::Nodes,
    places: &mut List<'_, Place>,
    from: Option<u16>,
    parent: u16,
    depth: u16,
) -> bool
    requires ready { Waiting (G.problem graph.now) ticks.old places.old depth }
    requires sound { (v : ℕ) → v < (G.problem graph.now).nodes → leads (G.problem graph.now) from v ≡ true → Sound (G.problem graph.now) places.old.items.now places.old.len (record { node = v; parent = parent; depth = depth }) }
    requires same { Ticked (G.problem graph.now) ticks.old (G.holds graph.now reached.old) }
    ensures lent { Lent ticks.old ticks.new places.old places.new }
    ensures stepped { Stepped (G.problem graph.now) ticks.old ticks.new places.old places.new depth result }
    ensures same { Ticked (G.problem graph.now) ticks.new (G.holds graph.now reached.new) }
    ensures born { Born (G.problem graph.now) from parent depth places.new.items.now places.old.len places.new.len result }
{
    while let Some(node) = next_node(graph, from, reached) {
        if visit(
            graph,
            ticks,
            reached,
            places,
            Place {
                node,
                parent,
                depth,
            },
        ) {
            return true;
        }
    }
    false
}

/// Visits the sources, until one is a target.
fn start<G: Graph>(
    graph: &G,
    ticks: &mut Cleared<'_>,
    reached: &mut G::Nodes,
    places: &mut List<'_, Place>,
) -> bool
    requires ready { Waiting (G.problem graph.now) ticks.old places.old 0 }
    requires same { Ticked (G.problem graph.now) ticks.old (G.holds graph.now reached.old) }
    ensures lent { Lent ticks.old ticks.new places.old places.new }
    ensures stepped { Stepped (G.problem graph.now) ticks.old ticks.new places.old places.new 0 result }
    ensures same { Ticked (G.problem graph.now) ticks.new (G.holds graph.now reached.new) }
    ensures born { Born (G.problem graph.now) None 0 0 places.new.items.now places.old.len places.new.len result }
{
    visit_all(graph, ticks, reached, places, None, 0, 0)
}

/// Visits the nodes to which an edge leads from the place `head`, until one is a target.
fn scan<G: Graph>(
    graph: &G,
    ticks: &mut Cleared<'_>,
    reached: &mut G::Nodes,
    places: &mut List<'_, Place>,
    head: u16,
    from: Place,
) -> bool
    requires ready { Waiting (G.problem graph.now) ticks.old places.old (from.depth + 1) }
    requires below { head < places.old.len }
    requires here { at places.old.items.now head ≡ from }
    requires same { Ticked (G.problem graph.now) ticks.old (G.holds graph.now reached.old) }
    ensures lent { Lent ticks.old ticks.new places.old places.new }
    ensures stepped { Stepped (G.problem graph.now) ticks.old ticks.new places.old places.new (from.depth + 1) result }
    ensures same { Ticked (G.problem graph.now) ticks.new (G.holds graph.now reached.new) }
    ensures born { Born (G.problem graph.now) (Some from.node) head (from.depth + 1) places.new.items.now places.old.len places.new.len result }
{
    let depth = from.depth + 1;
    visit_all(graph, ticks, reached, places, Some(from.node), head, depth)
}

/// Visits the sources, then scans the places one after another, until a target is met or none is left.
fn explore<G: Graph>(
    graph: &G,
    ticks: &mut Cleared<'_>,
    reached: &mut G::Nodes,
    places: &mut List<'_, Place>,
) -> bool
    requires ready { Waiting (G.problem graph.now) ticks.old places.old 0 }
    requires same { Ticked (G.problem graph.now) ticks.old (G.holds graph.now reached.old) }
    requires empty { places.old.len ≡ 0 }
    ensures lent { Lent ticks.old ticks.new places.old places.new }
    ensures ended { Ended (G.problem graph.now) places.new result }
    ensures sized { length ticks.new.bytes.now ≡ length ticks.old.bytes.now }
    ensures kept { Kept (G.problem graph.now) places.old.items.now places.new.items.now }
{
    if start(graph, ticks, reached, places) {
        return true;
    }
    // By index, since the places grow while they are gone over.
    for head in 0..graph.nodes() {
        let Some(from) = places.get(head as usize) else {
            return false;
        };
        if scan(graph, ticks, reached, places, head, from) {
            return true;
        }
    }
    false
}

/// The place of a target that no shorter walk from a source reaches, or `None` where no walk leads from a source to a target.
/// From that place the parents lead back to a source, along the first of the shortest walks: where another one parts from it, it
/// has the lower node. The ticks are zero in the end, whatever they held, and of the places
/// no more than the first `nodes()` are written.
pub fn search<G: Graph>(
    graph: &G,
    ticks: &mut [u8],
    places: &mut [Place],
) -> Result<Option<usize>, TooShort>
    ensures answer { Answered (G.problem graph.now) ticks.old places.old places.new result }
    ensures ticks { ticks.new ≡ replicate (length ticks.old) 0 }
    ensures kept { Kept (G.problem graph.now) places.old places.new }
{
    let nodes = graph.nodes() as usize;
    let room = places.len();
    let mut marks = Cleared::over(ticks);
    let mut queue = List::over(places);
    if marks.len() < nodes || room < nodes {
        return Err(TooShort);
    }
    // What was reached is kept twice: the ticks are lent memory, to be handed back zero, and count the places, so that a push has room;
    // the set is the form in which the graph finds the next node.
    let mut reached = graph.no_nodes();
    // No second answer beside the test: the target that was met is the last place.
    if explore(graph, &mut marks, &mut reached, &mut queue) {
        Ok(Some(queue.len() - 1))
    } else {
        Ok(None)
    }
}
