//! Moves at random on random problems, each answer against plain searches.
ghost use Rattle.std.specs.Prelude.{◌<◌};

use crate::given::{Given, problem_of};
use crate::pair::Pair;
use crate::rows::{global, local, of};
use crate::searching::is_right;
use cnf_problem::{AtomKind, Edge, negated};
use dg_base::{Lit, OutOfMemory};
use order_solver::Step;
use std::alloc::Global;
use std::test::Fail;

// Numbers that look like random ones (linear congruence).
#[derive(Drop)]
struct Random {
    seed: u32,
}

impl Random {
    fn below(&mut self, bound: u32) -> u32
        requires { 0 < bound }
        ensures { result < bound }
    {
        self.seed = self.seed.wrapping_mul(1664525).wrapping_add(1013904223);
        (self.seed >> 8) % bound
    }

    fn edge(&mut self) -> Edge {
        let from = self.below(9);
        let to = self.below(9);
        if self.below(2) == 0 {
            local(from, to)
        } else {
            global(from, to)
        }
    }

    fn kind(&mut self) -> AtomKind {
        let few = self.below(3);
        let many = self.below(9);
        match self.below(4) {
            0 => AtomKind::Plain,
            1 => AtomKind::WriteOrder {
                first: few,
                second: many,
            },
            _ => AtomKind::ReadFrom {
                write: few,
                read: many,
            },
        }
    }

    // A literal of one of seven variables, in one of four cases the negation.
    fn lit(&mut self) -> Lit {
        let lit = of(self.below(7));
        if self.below(4) == 0 {
            negated(lit)
        } else {
            lit
        }
    }
}

// Twelve atoms.
fn random_atoms(alloc: Global, random: &mut Random) -> Result<Vec<(Lit, AtomKind)>, OutOfMemory> {
    let mut atoms = Vec::new(alloc);
    for _ in 0..12 {
        let lit = random.lit();
        atoms.push((lit, random.kind()))?;
    }
    Ok(atoms)
}

// An own edge for every second atom or so.
fn random_edges(alloc: Global, random: &mut Random) -> Result<Vec<(usize, Edge)>, OutOfMemory> {
    let mut own = Vec::new(alloc);
    for atom in 0..12 {
        if random.below(2) == 0 {
            own.push((atom, random.edge()))?;
        }
    }
    Ok(own)
}

// Undoes to some level.
fn go_back(pair: &mut Pair, random: &mut Random, decided: &mut Vec<Lit>) {
    let level = pair.level();
    if 0 < level {
        let level = random.below(level);
        pair.undo_to(level);
        decided.truncate(level as usize);
    }
}

// Decides a literal at random, or undoes to some level.
fn move_on(
    pair: &mut Pair,
    random: &mut Random,
    decided: &mut Vec<Lit>,
) -> Result<(), OutOfMemory> {
    let lit = random.lit();
    if pair.decide(lit) {
        decided.push(lit)?;
    } else {
        go_back(pair, random, decided);
    }
    Ok(())
}

// How many answers of each kind there were.
#[derive(Drop)]
struct Answers {
    quiet: u32,
    implied: u32,
    conflicts: u32,
}

impl Answers {
    fn count(&mut self, step: &Step) {
        match step {
            Step::Quiet => self.quiet = self.quiet.saturating_add(1),
            Step::Implied(_) => self.implied = self.implied.saturating_add(1),
            Step::Conflict(_) => self.conflicts = self.conflicts.saturating_add(1),
        }
    }
}

// One move at random and the answer behind it; whether it is right. A conflict is undone.
fn try_move(
    alloc: Global,
    given: Given,
    pair: &mut Pair,
    random: &mut Random,
    decided: &mut Vec<Lit>,
    answers: &mut Answers,
) -> Result<bool, OutOfMemory> {
    move_on(pair, random, decided)?;
    let step = pair.propagate(alloc)?;
    answers.count(&step);
    let right = is_right(alloc, given, decided, &step)?;
    if matches!(step, Step::Conflict(_)) {
        pair.undo_to(0);
        decided.truncate(0);
    }
    Ok(right)
}

// Thirty moves at random; whether each answer is right.
fn try_moves(
    alloc: Global,
    given: Given,
    pair: &mut Pair,
    random: &mut Random,
    answers: &mut Answers,
) -> Result<bool, OutOfMemory> {
    let mut decided = Vec::new(alloc);
    for _ in 0..30 {
        if !try_move(alloc, given, pair, random, &mut decided, answers)? {
            return Ok(false);
        }
    }
    Ok(true)
}

// Moves at random on one random problem; whether each answer is right.
fn try_problem(
    alloc: Global,
    random: &mut Random,
    answers: &mut Answers,
) -> Result<bool, OutOfMemory> {
    let atoms = random_atoms(alloc, random)?;
    let own = random_edges(alloc, random)?;
    let fixed = [random.edge()];
    let given = Given {
        vars: 7,
        nodes: 9,
        atoms: &atoms,
        own: &own,
        fixed: &fixed,
    };
    let mut pair = Pair::new(alloc, problem_of(alloc, given)?)?;
    try_moves(alloc, given, &mut pair, random, answers)
}

#[test]
fn random_graphs_with_undoing(rt: HostRuntime) -> Result<(), Fail> {
    let mut random = Random { seed: 1 };
    let mut answers = Answers {
        quiet: 0,
        implied: 0,
        conflicts: 0,
    };
    for _ in 0..40 {
        assert!(rt; try_problem(rt.alloc(), &mut random, &mut answers)?);
    }
    assert!(rt; answers.quiet > 50);
    assert!(rt; answers.implied > 50);
    assert!(rt; answers.conflicts > 50);
    Ok(())
}
