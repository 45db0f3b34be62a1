//! A walk over a graph, depth first, from nodes back along the edges that lead into them.

ghost use Rattle.std.specs.Prelude.{◌≡◌, ℕ, ◌+◌, ◌-◌, ◌<◌, ◌≤◌, [], ◌∷◌, ◌++◌, length, All, slice_get, replicate, IfOk, IfSome, IfNone, MatchOption};
ghost use Rattle.axiom_model.specs.declared.walk.Mark.TheVariants.{New, Open, Closed};
ghost use Rattle.axiom_model.specs.Sorting.{EndsBelow, HasEdge};
ghost use Rattle.axiom_model.specs.Walking.{LeadsInto, IsLast, AreLinks, IsTop, IsWalk, work, Onward, TurnsBack};

use dg_base::{List, OutOfMemory};
use std::alloc::Global;

/// How far the walk has come with a node.
#[derive(Debug, Clone, Copy, Drop)]
pub(crate) enum Mark {
    /// The walk has not met it.
    New,
    /// It lies on the path.
    Open,
    /// It lies in the order.
    Closed,
}

/// The walk. Edges into one node are linked: a link is one more than an edge's place in the list of
/// edges, and 0 stands for none.
#[derive(Debug, Drop)]
pub(crate) struct Walk {
    /// For each edge, the link to the last edge before it into the same node.
    pub earlier: List<usize>,
    /// For each node, the link to the last edge into it that was not passed.
    pub left: List<usize>,
    /// For each node, how far the walk has come with it.
    pub marks: List<Mark>,
    /// The nodes that are open, each with an edge to the one before it.
    pub path: List<u32>,
    /// The nodes that are closed, in an order in which all edges into them go forward.
    pub order: List<u32>,
}

// No links.
fn no_links(alloc: Global, count: u32) -> Result<List<usize>, OutOfMemory>
    ensures { IfOk result (λ l. l ≡ replicate count 0) }
{
    Ok(List::from_vec(Vec::from_elem(alloc, 0, count as usize)?))
}

// As many new nodes.
fn new_marks(alloc: Global, count: u32) -> Result<List<Mark>, OutOfMemory>
    ensures { IfOk result (λ l. l ≡ replicate count New) }
{
    Ok(List::from_vec(Vec::from_elem(alloc, Mark::New, count as usize)?))
}

// Links the edges with one target: for each edge the edge before it, for each node its last edge.
fn link(
    alloc: Global,
    nodes: u32,
    edges: &[(u32, u32)],
) -> Result<(List<usize>, List<usize>), OutOfMemory>
    requires { All (EndsBelow nodes) edges.now }
    ensures earlier_len { IfOk result (λ r. length r.0 ≡ length edges.now) }
    ensures left_len { IfOk result (λ r. length r.1 ≡ nodes) }
    ensures earlier { IfOk result (λ r. AreLinks edges.now r.0) }
    ensures left { IfOk result (λ r. (v p : ℕ) → slice_get r.1 v ≡ Some p → IsLast edges.now v (length edges.now) p) }
{
    let mut earlier = List::new(alloc);
    let mut left = no_links(alloc, nodes)?;
    for (place, edge) in edges.iter().enumerate() {
        let target = edge.1 as usize;
        earlier.push(left.as_slice()[target])?;
        left.set(target, place + 1);
    }
    Ok((earlier, left))
}

// Where an edge comes from.
fn source_of(edges: &[(u32, u32)], place: usize) -> u32
    requires { place < length edges.now }
    ensures { (v : ℕ) × (slice_get edges.now place ≡ Some (result, v)) }
{
    edges[place].0
}

impl Walk {
    /// A walk that has not begun.
    pub fn new(alloc: Global, nodes: u32, edges: &[(u32, u32)]) -> Result<Walk, OutOfMemory>
        requires { All (EndsBelow nodes) edges.now }
        ensures walk { IfOk result (λ w. IsWalk edges.now w) }
        ensures marks { IfOk result (λ w. length w.marks ≡ nodes) }
        ensures path { IfOk result (λ w. w.path ≡ []) }
    {
        let (earlier, left) = link(alloc, nodes, edges)?;
        let marks = new_marks(alloc, nodes)?;
        Ok(Walk {
            earlier,
            left,
            marks,
            path: List::new(alloc),
            order: List::new(alloc),
        })
    }

    // The last node of the path.
    fn top(&self) -> Option<u32>
        ensures { MatchOption result (self.now.path ≡ []) (λ v. IsTop self.now.path v) }
    {
        self.path.as_slice().last().copied()
    }

    // How far the walk has come with a node.
    fn mark_of(&self, node: u32) -> Mark
        requires { node < length self.now.marks }
        ensures { slice_get self.now.marks node ≡ Some result }
    {
        self.marks.as_slice()[node as usize]
    }

    // The link to the last edge into a node that was not passed.
    fn link_of(&self, node: u32) -> usize
        requires { node < length self.now.left }
        ensures { slice_get self.now.left node ≡ Some result }
    {
        self.left.as_slice()[node as usize]
    }

    // Puts a new node on the path.
    fn open(&mut self, edges: &[(u32, u32)], node: u32) -> Result<(), OutOfMemory>
        requires walk { IsWalk edges.now self.old }
        requires fresh { slice_get self.old.marks node ≡ Some New }
        requires leads { (v : ℕ) → IsTop self.old.path v → HasEdge edges.now node v }
        ensures walk { IfOk result (λ _. IsWalk edges.now self.new) }
        ensures onward { IfOk result (λ _. Onward self.old self.new) }
        ensures met { IfOk result (λ _. slice_get self.new.marks node ≡ Some Open) }
        ensures less { IfOk result (λ _. work self.new < work self.old) }
    {
        self.path.push(node)?;
        self.marks.set(node as usize, Mark::Open);
        Ok(())
    }

    // Moves the last node of the path into the order.
    fn close(&mut self, edges: &[(u32, u32)], node: u32) -> Result<(), OutOfMemory>
        requires walk { IsWalk edges.now self.old }
        requires top { IsTop self.old.path node }
        requires passed { slice_get self.old.left node ≡ Some 0 }
        ensures walk { IfOk result (λ _. IsWalk edges.now self.new) }
        ensures onward { IfOk result (λ _. Onward self.old self.new) }
        ensures less { IfOk result (λ _. work self.new < work self.old) }
    {
        let _node = self.path.pop();
        self.order.push(node)?;
        self.marks.set(node as usize, Mark::Closed);
        Ok(())
    }

    // Passes the last edge into the node that is left, at this place, which comes from a closed node.
    fn pass(&mut self, edges: &[(u32, u32)], node: u32, place: usize)
        requires walk { IsWalk edges.now self.old }
        requires within { place < length edges.now }
        requires last { slice_get self.old.left node ≡ Some (place + 1) }
        requires closed { (u : ℕ) → slice_get edges.now place ≡ Some (u, node) → slice_get self.old.marks u ≡ Some Closed }
        ensures walk { IsWalk edges.now self.new }
        ensures onward { Onward self.old self.new }
        ensures less { work self.new < work self.old }
    {
        let link = self.earlier.as_slice()[place];
        self.left.set(node as usize, link);
    }

    // One step at the last node of the path. Where an edge into it comes from the path, the edge's
    // source.
    fn step(&mut self, edges: &[(u32, u32)], node: u32) -> Result<Option<u32>, OutOfMemory>
        requires ends { All (EndsBelow (length self.old.marks)) edges.now }
        requires walk { IsWalk edges.now self.old }
        requires top { IsTop self.old.path node }
        ensures walk { IfOk result (λ _. IsWalk edges.now self.new) }
        ensures onward { IfOk result (λ _. Onward self.old self.new) }
        ensures less { IfOk result (λ r. MatchOption r (work self.new < work self.old) (λ _. Unit {0})) }
        ensures back { IfOk result (λ r. IfSome r (λ source. TurnsBack edges.now self.new.path source)) }
    {
        let link = self.link_of(node);
        if link == 0 {
            self.close(edges, node)?;
            return Ok(None);
        }
        let place = link - 1;
        let source = source_of(edges, place);
        match self.mark_of(source) {
            Mark::New => self.open(edges, source)?,
            Mark::Closed => self.pass(edges, node, place),
            Mark::Open => return Ok(Some(source)),
        }
        Ok(None)
    }

    /// Walks back from a node until all that lead to it are in the order. Where the path turns back
    /// on itself, the node to which its last node turns.
    pub fn settle(&mut self, edges: &[(u32, u32)], root: u32) -> Result<Option<u32>, OutOfMemory>
        requires ends { All (EndsBelow (length self.old.marks)) edges.now }
        requires walk { IsWalk edges.now self.old }
        requires path { self.old.path ≡ [] }
        requires within { root < length self.old.marks }
        ensures walk { IfOk result (λ _. IsWalk edges.now self.new) }
        ensures onward { IfOk result (λ _. Onward self.old self.new) }
        ensures met { IfOk result (λ _. slice_get self.new.marks root ≡ Some New → ⊥) }
        ensures back { IfOk result (λ r. MatchOption r (self.new.path ≡ []) (λ source. TurnsBack edges.now self.new.path source)) }
    {
        if !matches!(self.mark_of(root), Mark::New) {
            return Ok(None);
        }
        self.open(edges, root)?;
        while let Some(node) = self.top() {
            if let Some(source) = self.step(edges, node)? {
                return Ok(Some(source));
            }
        }
        Ok(None)
    }
}
