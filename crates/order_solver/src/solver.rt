ghost use Rattle.std.specs.Prelude.{List, false, IfNone, IfSome, ◌+◌, ◌*◌, map, slice_get, Some, ◌≡◌, ◌≤◌, ◌<◌, ◌∷◌, ◌++◌, [], take, length, IfOk, MatchOption, Contains};
ghost use Rattle.cnf_problem.specs.Literals.{IsOver};
ghost use Rattle.cnf_problem.specs.Edges.{HasCycle};
ghost use Rattle.from_read.specs.Derivations.{IsDerived};
ghost use Rattle.cnf_problem.specs.Chains.{IsUnassigned, AllFalse};
ghost use Rattle.trail_state.specs.Trails.{true_lits};
ghost use Rattle.order_solver.specs.Fresh.{IsFresh};
ghost use Rattle.order_solver.specs.Ordering.{own_at, all_count, HasEdgeWith, IsUnit, IsOrdering, IsStep, IsAcyclic, IsCause, IsCycleClause};
ghost use Rattle.dg_base.specs.declared.Lit.{Lit as ALit};
ghost use Rattle.cycle_detect.specs.Orders.{Held, IsClosed};
ghost use Rattle.cnf_problem.specs.declared.problem.Graph.{Graph as AGraph};
ghost use Rattle.cnf_problem.specs.declared.problem.Edge.{Edge as AnEdge};
ghost use Rattle.cnf_problem.specs.declared.problem.Atom.{Atom as AnAtom};
ghost use Rattle.cnf_problem.specs.declared.problem.Problem.{Problem as AProblem};
ghost use Rattle.order_solver.specs.Parts.{cut_graph, graph_in, IsExtended, IsOwnClosing, IsRest, IsTried, AreCaused, IsExplained, Denies};
ghost use Rattle.order_solver.specs.Working.{IsPlaceOf, AreGrown, IsWorking, IsNext, IsOwnHeld, IsClosing, AreTrue, NoneTrue};

use crate::caused::{Cause, CausedGraph};
use crate::explain::{Closing, explain};
use cnf_problem::{Edge, Graph, Problem};
use cycle_detect::Edges;
use dg_base::{Lit, OutOfMemory, Steps};
use from_read::FromRead;
use std::alloc::Global;
use std::marker::{Brand, Model};
use std::sync::ledger::{Blank, Ledger};
use trail_state::{Lits, Trail};

/// What the theory answers.
#[derive(Debug, Drop)]
pub enum Step {
    /// The edges of the true literals have no cycle, and no unassigned atom's own edges close one.
    Quiet,
    /// A cycle clause that has one unassigned literal, the others being false.
    Implied(Lits),
    /// A cycle clause that is false.
    Conflict(Lits),
}

/// How far the two graphs and the derived edges had come before a literal was worked in.
#[derive(Clone, Copy, Debug, Drop)]
pub struct Place {
    local: u32,
    global: u32,
    atoms: u32,
}

/// The two graphs of a problem under the literals of a trail.
#[derive(Debug, Drop)]
pub struct OrderSolver {
    local: CausedGraph,
    global: CausedGraph,
    froms: FromRead,
    // for each atom an edge from its literal's code to itself, so that a literal's atoms are found
    atoms: Edges,
    asserted: Vec<Lit>,
    // for each asserted literal that is worked in, how far all had come before it
    marks: Vec<Place>,
    // whether the fixed edges alone have a cycle
    stuck: bool,
}

impl Model for OrderSolver {
    ghost use Rattle.std.specs.Prelude.{◌≤◌, ◌<◌, ◌+◌, ◌*◌, ◌^◌, map, length, vec_capacity};
    ghost use Rattle.order_solver.specs.Ordering.{SolverView};

    ghost Value = { SolverView };

    ghost view = { λ s. record {
      local = s.local;
      global = s.global;
      froms = s.froms;
      atoms = s.atoms;
      asserted = s.asserted.items;
      marks = map (λ m. record { local = m.local; global = m.global; atoms = m.atoms }) s.marks.items;
      stuck = s.stuck;
    } };

    ghost invariant = { λ s. (s.atoms.nodes ≤ 2 * vec_capacity s.asserted + 2) × (s.atoms.nodes ≤ 2 * vec_capacity s.marks + 2) × (length s.asserted.items < 2 ^ 32) };
}

// How many edges may be held at most: the fixed ones, those of all atoms, and so many derived ones.
// Want of memory where that is no `u32`.
fn edge_room(problem: &Problem, derived: u32) -> Result<u32, OutOfMemory>
    ensures { IfOk result (λ n. n ≡ derived + length problem.now.fixed + all_count problem.now) }
{
    let mut room = derived as usize;
    room = room.checked_add(problem.fixed.len()).ok_or(OutOfMemory)?;
    for atom in problem.atoms.as_slice() {
        room = room.checked_add(atom.edges.len()).ok_or(OutOfMemory)?;
    }
    let Ok(room) = u32::try_from(room) else {
        return Err(OutOfMemory);
    };
    Ok(room)
}

// For each atom an edge from its literal's code to itself.
fn atoms_by_literal(alloc: Global, problem: &Problem) -> Result<Edges, OutOfMemory>
    ensures codes { IfOk result (λ e. e.nodes ≡ 2 * problem.now.vars + 2) }
    ensures list { IfOk result (λ e. e.list ≡ map (λ a. (a.lit.0, a.lit.0)) problem.now.atoms) }
{
    if problem.vars > 2147483646 {
        return Err(OutOfMemory);
    }
    let mut atoms = Edges::new(alloc, 2 * problem.vars + 2, problem.atoms.len() as u32)?;
    for atom in problem.atoms.as_slice() {
        atoms.push(atom.lit.0, atom.lit.0);
    }
    Ok(atoms)
}

impl OrderSolver {
    /// The graphs with their fixed edges.
    pub fn new(alloc: Global, problem: &Problem) -> Result<OrderSolver, OutOfMemory>
        ensures fits { IfOk result (λ s. IsOrdering problem.now s) }
        ensures asserted { IfOk result (λ s. s.asserted ≡ []) }
    {
        let froms = FromRead::new(alloc, problem)?;
        let room = edge_room(problem, froms.room())?;
        let nodes = problem.nodes.len() as u32;
        let vars = problem.vars as usize;
        let mut solver = OrderSolver {
            local: CausedGraph::new(alloc, nodes, room)?,
            global: CausedGraph::new(alloc, nodes, room)?,
            froms,
            atoms: atoms_by_literal(alloc, problem)?,
            asserted: Vec::with_capacity(alloc, vars)?,
            marks: Vec::with_capacity(alloc, vars)?,
            stuck: false,
        };
        solver.hold_fixed_counted::<Brand>(problem, Blank::new(1));
        Ok(solver)
    }

    // Holds the fixed edges, and counts the steps from nothing.
    fn hold_fixed_counted<L: Ledger>(&mut self, problem: &Problem, blank: Blank)
        requires name { blank.name ≡ L.name }
        requires parts { blank.parts ≡ L.parts }
        requires some { 0 < L.parts }
        requires fresh { IsFresh problem.now self.old }
        ensures fits { IsOrdering problem.now self.new }
        ensures asserted { self.new.asserted ≡ [] }
    {
        let mut steps = Steps::<L>::new(blank);
        self.hold_fixed(problem, &mut steps);
    }

    // Holds the fixed edges, unless they have a cycle.
    fn hold_fixed<L: Ledger>(&mut self, problem: &Problem, steps: &mut Steps<L>)
        requires fresh { IsFresh problem.now self.old }
        ensures fits { IsOrdering problem.now self.new }
        ensures asserted { self.new.asserted ≡ [] }
    {
        for edge in problem.fixed.as_slice() {
            if self.closes(*edge, Cause::Fixed, steps) {
                self.stuck = true;
                return;
            }
        }
    }

    /// A literal of the trail, in its order. Takes no memory.
    pub fn assert_atom(&mut self, lit: Lit)
        requires fits { (p : _) × IsOrdering p self.old × IsOver p.vars lit }
        requires free { IsUnassigned self.old.asserted lit }
        ensures asserted { self.new.asserted ≡ self.old.asserted ++ lit ∷ [] }
        ensures fits { (p : _) → IsOrdering p self.old → IsOver p.vars lit → IsOrdering p self.new }
    {
        self.asserted.push_reserved(lit);
    }

    /// Keeps the first so many of the asserted literals. Takes no memory.
    pub fn undo_to(&mut self, trail_length: u32)
        requires within { trail_length ≤ length self.old.asserted }
        ensures asserted { self.new.asserted ≡ take trail_length self.old.asserted }
        ensures fits { (p : _) → IsOrdering p self.old → IsOrdering p self.new }
    {
        let count = trail_length as usize;
        if count >= self.marks.len() {
            self.asserted.truncate(count);
            return;
        }
        let place = self.marks[count];
        self.take_back(place);
        self.marks.truncate(count);
        self.asserted.truncate(count);
    }

    /// How many literals are asserted.
    pub fn len(&self) -> u32
        ensures { result ≡ length self.now.asserted }
    {
        self.asserted.len() as u32
    }

    /// Whether the true literals close a cycle: a cycle clause that is false. It looks at no
    /// unassigned atom.
    pub fn check<L: Ledger>(
        &mut self,
        alloc: Global,
        problem: &Problem,
        steps: &mut Steps<L>,
    ) -> Result<Option<Lits>, OutOfMemory>
        requires fits { IsOrdering problem.now self.old }
        ensures fits { IsOrdering problem.now self.new }
        ensures asserted { self.new.asserted ≡ self.old.asserted }
        ensures worked { IfOk result (λ o. IfNone o ((self.new.stuck ≡ false) × (length self.new.marks ≡ length self.new.asserted))) }
        ensures found { IfOk result (λ o. MatchOption o (IsAcyclic problem.now self.old.asserted) (λ clause. IsCycleClause problem.now clause × AllFalse self.old.asserted clause)) }
    {
        if self.stuck {
            return Ok(Some(Lits::new(alloc)));
        }
        let mut place = self.place();
        while self.marks.len() < self.asserted.len() {
            let lit = self.asserted[self.marks.len()];
            let clause = self.work_in(alloc, problem, lit, place, steps)?;
            if clause.is_some() {
                return Ok(clause);
            }
            place = self.place();
        }
        Ok(None)
    }

    /// One answer of the theory on the trail as it stands.
    pub fn propagate<L: Ledger>(
        &mut self,
        alloc: Global,
        problem: &Problem,
        trail: &Trail,
        steps: &mut Steps<L>,
    ) -> Result<Step, OutOfMemory>
        requires fits { IsOrdering problem.now self.old }
        requires vars { trail.now.vars ≡ problem.now.vars }
        requires asserted { self.old.asserted ≡ true_lits trail.now.entries }
        ensures fits { IsOrdering problem.now self.new }
        ensures asserted { self.new.asserted ≡ self.old.asserted }
        ensures step { IfOk result (λ step. IsStep problem.now (true_lits trail.now.entries) step) }
    {
        if let Some(clause) = self.check(alloc, problem, steps)? {
            return Ok(Step::Conflict(clause));
        }
        for (atom, said) in problem.atoms.as_slice().iter().enumerate() {
            if trail.value(said.lit).is_none() {
                if let Some(clause) = self.look_at(alloc, problem, atom as u32, steps)? {
                    return Ok(Step::Implied(clause));
                }
            }
        }
        Ok(Step::Quiet)
    }

    // Works one asserted literal in, from this place on. A cycle clause where its edges close a
    // cycle, and they are off again then.
    fn work_in<L: Ledger>(
        &mut self,
        alloc: Global,
        problem: &Problem,
        lit: Lit,
        place: Place,
        steps: &mut Steps<L>,
    ) -> Result<Option<Lits>, OutOfMemory>
        requires fits { IsOrdering problem.now self.old }
        requires going { self.old.stuck ≡ false }
        requires lit { slice_get self.old.asserted (length self.old.marks) ≡ Some lit }
        requires place { IsPlaceOf self.old place }
        ensures fits { IsOrdering problem.now self.new }
        ensures rest { (self.new.asserted ≡ self.old.asserted) × (self.new.stuck ≡ self.old.stuck) }
        ensures found { IfOk result (λ o. MatchOption o (length self.new.marks ≡ length self.old.marks + 1) (λ clause. IsCycleClause problem.now clause × AllFalse self.old.asserted clause)) }
    {
        let Some(closing) = self.hold_literal(problem, lit, steps) else {
            self.marks.push_reserved(place);
            return Ok(None);
        };
        let conflict = self.explain(alloc, problem, closing);
        self.take_back(place);
        Ok(Some(conflict?))
    }

    // A cycle clause where an atom's own edges close a cycle. They are off again in either case.
    fn look_at<L: Ledger>(
        &mut self,
        alloc: Global,
        problem: &Problem,
        atom: u32,
        steps: &mut Steps<L>,
    ) -> Result<Option<Lits>, OutOfMemory>
        requires fits { IsOrdering problem.now self.old }
        requires going { self.old.stuck ≡ false }
        requires worked { length self.old.marks ≡ length self.old.asserted }
        requires atom { atom < length problem.now.atoms }
        requires free { (x : AnAtom) → slice_get problem.now.atoms atom ≡ Some x → IsUnassigned self.old.asserted x.lit }
        ensures fits { IsOrdering problem.now self.new }
        ensures rest { (self.new.asserted ≡ self.old.asserted) × (self.new.marks ≡ self.old.marks) × (self.new.stuck ≡ self.old.stuck) }
        ensures found { IfOk result (λ o. MatchOption o ((x : AnAtom) (g : AGraph) → slice_get problem.now.atoms atom ≡ Some x → ¬ HasCycle (λ u v. HasEdgeWith problem.now self.old.asserted x (record { graph = g; from = u; to = v }))) (λ clause. IsCycleClause problem.now clause × IsUnit self.old.asserted clause)) }
    {
        let place = self.place();
        let Some(closing) = self.hold_own(problem, atom, steps) else {
            self.take_back(place);
            return Ok(None);
        };
        let clause = self.explain(alloc, problem, closing);
        self.take_back(place);
        let clause = clause?;
        Ok(Some(clause))
    }

    // How far the graphs and the derived edges have come.
    fn place(&self) -> Place
        ensures local { result.local ≡ length self.now.local.edges }
        ensures global { result.global ≡ length self.now.global.edges }
        ensures atoms { result.atoms ≡ length self.now.froms.true_atoms }
        ensures derived { IsDerived self.now.froms }
        ensures local_long { length self.now.local.causes ≡ length self.now.local.edges }
        ensures global_long { length self.now.global.causes ≡ length self.now.global.edges }
        ensures local_acyclic { ¬ HasCycle (Held self.now.local.edges) }
        ensures global_acyclic { ¬ HasCycle (Held self.now.global.edges) }
    {
        Place {
            local: self.local.mark(),
            global: self.global.mark(),
            atoms: self.froms.mark(),
        }
    }

    // Takes off what came behind a place.
    fn take_back(&mut self, place: Place)
        ensures local { self.new.local ≡ cut_graph place.local self.old.local }
        ensures global { self.new.global ≡ cut_graph place.global self.old.global }
        ensures atoms { self.new.froms.true_atoms ≡ take place.atoms self.old.froms.true_atoms }
        ensures problem { (self.new.froms.nodes ≡ self.old.froms.nodes) × (self.new.froms.kinds ≡ self.old.froms.kinds) }
        ensures rest { (self.new.atoms ≡ self.old.atoms) × (self.new.asserted ≡ self.old.asserted) × (self.new.marks ≡ self.old.marks) × (self.new.stuck ≡ self.old.stuck) }
    {
        self.local.undo_to(place.local);
        self.global.undo_to(place.global);
        if place.atoms < self.froms.mark() {
            self.froms.undo_to(place.atoms);
        }
    }

    // Holds the edges of a literal's atoms, up to one that closes a cycle.
    fn hold_literal<L: Ledger>(
        &mut self,
        problem: &Problem,
        lit: Lit,
        steps: &mut Steps<L>,
    ) -> Option<Closing>
        requires over { IsOver problem.now.vars lit }
        requires codes { self.old.atoms.nodes ≡ 2 * problem.now.vars + 2 }
        requires atoms { self.old.atoms.list ≡ map (λ a. (a.lit.0, a.lit.0)) problem.now.atoms }
        requires free { NoneTrue problem.now lit self.old }
        requires working { (lits : List ALit) × IsWorking problem.now lits self.old × Contains lits lit }
        ensures grown { AreGrown self.old self.new }
        ensures all { IfNone result (AreTrue problem.now lit self.new) }
        ensures none { IfNone result ((lits : List ALit) → IsWorking problem.now lits self.old → Contains lits lit → IsWorking problem.now lits self.new) }
        ensures some { IfSome result (λ closing. (lits : List ALit) → IsWorking problem.now lits self.old → Contains lits lit → IsClosing problem.now lits self.new closing) }
    {
        let mut next = self.atoms.last_into(lit.0);
        while let Some(atom) = next {
            let closing = self.hold_atom(problem, atom, steps);
            if closing.is_some() {
                return closing;
            }
            next = self.atoms.before(atom);
        }
        None
    }

    // Holds an atom's own edges and those that it derives with true atoms, up to one that closes a
    // cycle.
    fn hold_atom<L: Ledger>(
        &mut self,
        problem: &Problem,
        atom: u32,
        steps: &mut Steps<L>,
    ) -> Option<Closing>
        requires { (lits : List ALit) × IsWorking problem.now lits self.old × IsNext problem.now lits atom self.old }
        ensures grown { AreGrown self.old self.new }
        ensures put { IfNone result (self.new.froms.true_atoms ≡ self.old.froms.true_atoms ++ atom ∷ []) }
        ensures none { IfNone result ((lits : List ALit) → IsWorking problem.now lits self.old → IsNext problem.now lits atom self.old → IsWorking problem.now lits self.new) }
        ensures some { IfSome result (λ closing. (lits : List ALit) → IsWorking problem.now lits self.old → IsNext problem.now lits atom self.old → IsClosing problem.now lits self.new closing) }
    {
        let closing = self.hold_own(problem, atom, steps);
        if closing.is_some() {
            return closing;
        }
        self.hold_derived(atom, steps)
    }

    // Holds an atom's own edges, up to one that closes a cycle.
    fn hold_own<L: Ledger>(
        &mut self,
        problem: &Problem,
        atom: u32,
        steps: &mut Steps<L>,
    ) -> Option<Closing>
        requires atom { atom < length problem.now.atoms }
        requires nodes { (g : AGraph) → (graph_in self.old g).nodes ≡ length problem.now.nodes }
        requires room { (g : AGraph) → length (graph_in self.old g).edges + own_at problem.now.atoms atom ≤ (graph_in self.old g).room }
        ensures extended { (g : AGraph) → IsExtended problem.now atom g (own_at problem.now.atoms atom) (graph_in self.old g) (graph_in self.new g) }
        ensures rest { IsRest self.old self.new }
        ensures acyclic { (g : AGraph) → ¬ HasCycle (Held (graph_in self.old g).edges) → ¬ HasCycle (Held (graph_in self.new g).edges) }
        ensures none { IfNone result ((x : AnAtom) (e : AnEdge) → slice_get problem.now.atoms atom ≡ Some x → Contains x.edges e → Held (graph_in self.new e.graph).edges e.from e.to) }
        ensures some { IfSome result (λ closing. IsOwnClosing problem.now atom self.new closing) }
    {
        let cause = Cause::Own(atom);
        for edge in problem.atoms.as_slice()[atom as usize].edges.as_slice() {
            if self.closes(*edge, cause, steps) {
                return Some(Closing { edge: *edge, cause });
            }
        }
        None
    }

    // Holds the edges that an atom derives with true atoms, up to one that closes a cycle.
    fn hold_derived<L: Ledger>(&mut self, atom: u32, steps: &mut Steps<L>) -> Option<Closing>
        requires { (p : AProblem) × ((lits : List ALit) × IsOwnHeld p lits atom self.old) }
        ensures grown { AreGrown self.old self.new }
        ensures put { IfNone result (self.new.froms.true_atoms ≡ self.old.froms.true_atoms ++ atom ∷ []) }
        ensures none { IfNone result ((p : AProblem) (lits : List ALit) → IsOwnHeld p lits atom self.old → IsWorking p lits self.new) }
        ensures some { IfSome result (λ closing. (p : AProblem) (lits : List ALit) → IsOwnHeld p lits atom self.old → IsClosing p lits self.new closing) }
    {
        let before = self.froms.derived().len();
        self.froms.on_true(atom);
        for i in before..self.froms.derived().len() {
            let derived = self.froms.derived()[i];
            let cause = Cause::Pair {
                read_from: derived.read_from,
                write_order: derived.write_order,
            };
            if self.closes(derived.edge, cause, steps) {
                return Some(Closing {
                    edge: derived.edge,
                    cause,
                });
            }
        }
        None
    }

    // Holds an edge, unless it closes a cycle: whether it does.
    fn closes<L: Ledger>(&mut self, edge: Edge, cause: Cause, steps: &mut Steps<L>) -> bool
        requires from { edge.from < (graph_in self.old edge.graph).nodes }
        requires to { edge.to < (graph_in self.old edge.graph).nodes }
        requires room { length (graph_in self.old edge.graph).edges < (graph_in self.old edge.graph).room }
        ensures tried { IsTried self.old edge cause result self.new }
        ensures acyclic { (g : AGraph) → ¬ HasCycle (Held (graph_in self.old g).edges) → ¬ HasCycle (Held (graph_in self.new g).edges) }
    {
        match edge.graph {
            Graph::Local => self.local.closes(edge.from, edge.to, cause, steps),
            Graph::Global => self.global.closes(edge.from, edge.to, cause, steps),
        }
    }

    // The clause that denies the causes of the cycle that an edge closes.
    fn explain(
        &self,
        alloc: Global,
        problem: &Problem,
        closing: Closing,
    ) -> Result<Lits, OutOfMemory>
        requires nodes { (graph_in self.now closing.edge.graph).nodes ≡ length problem.now.nodes }
        requires closed { IsClosed (graph_in self.now closing.edge.graph).edges closing.edge.from closing.edge.to (graph_in self.now closing.edge.graph).cycle }
        requires caused { (lits : List ALit) × AreCaused problem.now lits closing.edge.graph (graph_in self.now closing.edge.graph).edges (graph_in self.now closing.edge.graph).causes × IsCause problem.now lits closing.edge closing.cause }
        ensures explained { IfOk result (λ clause. (lits : List ALit) → AreCaused problem.now lits closing.edge.graph (graph_in self.now closing.edge.graph).edges (graph_in self.now closing.edge.graph).causes → IsCause problem.now lits closing.edge closing.cause → IsExplained problem.now lits clause) }
        ensures denies { IfOk result (λ clause. Denies problem.now clause closing.cause) }
    {
        match closing.edge.graph {
            Graph::Local => explain(alloc, problem, &self.local, closing),
            Graph::Global => explain(alloc, problem, &self.global, closing),
        }
    }
}
