ghost use Rattle.std.specs.Prelude.{◌≡◌, ◌<◌, ◌≤◌, ◌+◌, ◌-◌, ◌∷◌, ◌++◌, [], map, take, length, IfOk, Contains};
ghost use Rattle.from_read.specs.Derivations.{FromReadView, IsDerived};

use crate::capacity::room_for;
use crate::edge_set::{DerivedEdge, EdgeSet};
use crate::kinds::{pop_atom, push_atom};
use crate::pairs::put_all;
use cnf_problem::{AtomKind, Node, Problem};
use dg_base::OutOfMemory;
use std::alloc::Global;
use std::marker::Model;

/// The from-read edges of the atoms that are true.
#[derive(Debug, Drop)]
pub struct FromRead {
    nodes: Vec<Node>,
    kinds: Vec<AtomKind>,
    // the atoms that are true, the oldest first, and how many edges were derived before each
    true_atoms: Vec<u32>,
    marks: Vec<u32>,
    // those of them that read, and those that order two writes
    reads: Vec<u32>,
    orders: Vec<u32>,
    found: EdgeSet,
    // at most how many edges the pairs of all atoms derive
    room: u32,
}

impl Model for FromRead {
    ghost use Rattle.std.specs.Prelude.{◌≡◌, ◌≤◌, ◌<◌, ◌^◌, length, vec_capacity};
    ghost use Rattle.from_read.specs.Derivations.{FromReadView};
    ghost use Rattle.from_read.specs.Parts.{AreParts, IsEnough, IsFine};

    ghost Value = { FromReadView };

    ghost view = { λ f. record { nodes = f.nodes.items; kinds = f.kinds.items; true_atoms = f.true_atoms.items; derived = f.found.list } };

    ghost invariant = { λ f. AreParts (record { nodes = f.nodes.items; kinds = f.kinds.items; true_atoms = f.true_atoms.items; derived = f.found.list }) f.marks.items f.reads.items f.orders.items × IsFine f.nodes.items f.kinds.items f.found × IsEnough f.nodes.items f.kinds.items f.room × (length f.kinds.items < 2 ^ 32) × (length f.kinds.items ≤ vec_capacity f.true_atoms) × (length f.kinds.items ≤ vec_capacity f.marks) × (length f.kinds.items ≤ vec_capacity f.reads) × (length f.kinds.items ≤ vec_capacity f.orders) };
}

impl FromRead {
    /// No true atom yet. No other call takes memory.
    pub fn new(alloc: Global, problem: &Problem) -> Result<FromRead, OutOfMemory>
        ensures nodes { IfOk result (λ f. f.nodes ≡ problem.now.nodes) }
        ensures kinds { IfOk result (λ f. f.kinds ≡ map (λ a. a.kind) problem.now.atoms) }
        ensures none { IfOk result (λ f. (f.true_atoms ≡ []) × (f.derived ≡ [])) }
    {
        let nodes = Vec::from_slice(alloc, problem.nodes.as_slice())?;
        let count = problem.atoms.len();
        let mut kinds = Vec::with_capacity(alloc, count)?;
        for atom in problem.atoms.as_slice() {
            kinds.push_reserved(atom.kind);
        }
        let room = room_for(alloc, nodes.len(), &kinds)?;
        Ok(FromRead {
            found: EdgeSet::new(alloc, nodes.len(), room)?,
            room,
            nodes,
            kinds,
            true_atoms: Vec::with_capacity(alloc, count)?,
            marks: Vec::with_capacity(alloc, count)?,
            reads: Vec::with_capacity(alloc, count)?,
            orders: Vec::with_capacity(alloc, count)?,
        })
    }

    /// An atom becomes true: the number of edges that this newly derives.
    pub fn on_true(&mut self, atom: u32) -> u32
        requires within { atom < length self.old.kinds }
        requires free { ¬ Contains self.old.true_atoms atom }
        ensures atoms { self.new.true_atoms ≡ self.old.true_atoms ++ atom ∷ [] }
        ensures problem { (self.new.nodes ≡ self.old.nodes) × (self.new.kinds ≡ self.old.kinds) }
        ensures older { take (length self.old.derived) self.new.derived ≡ self.old.derived }
        ensures count { length self.new.derived ≡ length self.old.derived + result }
        ensures derived { IsDerived self.new }
    {
        let before = self.found.len();
        let kind = self.kinds[atom as usize];
        put_all(
            &self.nodes,
            &self.kinds,
            atom,
            &self.reads,
            &self.orders,
            &mut self.found,
        );
        push_atom(kind, atom, &mut self.reads, &mut self.orders);
        self.marks.push_reserved(before);
        self.true_atoms.push_reserved(atom);
        self.found.len() - before
    }

    /// At most how many edges are derived, whichever atoms are true.
    pub fn room(&self) -> u32
        ensures { (v : FromReadView) → v.nodes ≡ self.now.nodes → v.kinds ≡ self.now.kinds → IsDerived v → length v.derived ≤ result }
    {
        self.room
    }

    /// How many atoms are true.
    pub fn mark(&self) -> u32
        ensures count { result ≡ length self.now.true_atoms }
        ensures derived { IsDerived self.now }
    {
        self.true_atoms.len() as u32
    }

    /// The edges that pairs of true atoms derive, each once.
    pub fn derived(&self) -> &[DerivedEdge]
        ensures items { result.now ≡ self.now.derived }
        ensures derived { IsDerived self.now }
    {
        self.found.as_slice()
    }

    // The newest true atom is not true any more.
    fn undo_last(&mut self)
        requires { 0 < length self.old.true_atoms }
        ensures atoms { self.new.true_atoms ≡ take (length self.old.true_atoms - 1) self.old.true_atoms }
        ensures problem { (self.new.nodes ≡ self.old.nodes) × (self.new.kinds ≡ self.old.kinds) }
        ensures cut { self.new.derived ≡ take (length self.new.derived) self.old.derived }
        ensures fewer { length self.new.derived ≤ length self.old.derived }
    {
        let last = self.true_atoms.len() - 1;
        let atom = self.true_atoms[last];
        let kind = self.kinds[atom as usize];
        let mark = self.marks[last];
        pop_atom(kind, &mut self.reads, &mut self.orders);
        self.found.cut_to(mark);
        self.true_atoms.truncate(last);
        self.marks.truncate(last);
    }

    /// Keeps the first so many of the atoms made true.
    pub fn undo_to(&mut self, mark: u32)
        requires { mark ≤ length self.old.true_atoms }
        ensures atoms { self.new.true_atoms ≡ take mark self.old.true_atoms }
        ensures problem { (self.new.nodes ≡ self.old.nodes) × (self.new.kinds ≡ self.old.kinds) }
        ensures cut { self.new.derived ≡ take (length self.new.derived) self.old.derived }
        ensures derived { IsDerived self.new }
    {
        while self.mark() > mark {
            self.undo_last();
        }
    }
}
