//! A solver with its trail and its problem, for tests and benchmarks: no call but `new` asks for
//! anything.
ghost use Rattle.std.specs.Prelude.{◌≡◌, ◌<◌, IsTrue};
ghost use Rattle.cnf_problem.specs.Literals.{IsOver};

use cnf_problem::{Problem, var};
use dg_base::{Lit, OutOfMemory, Steps};
use order_solver::{OrderSolver, Step};
use std::alloc::Global;
use std::marker::{Brand, Model};
use std::sync::ledger::{Blank, Ledger};
use trail_state::{Lits, Trail};

/// Whether a literal is of one of so many variables.
pub fn is_lit_over(lit: Lit, vars: u32) -> bool
    ensures { IsTrue result → IsOver vars lit }
{
    1 <= var(lit) && var(lit) <= vars
}

/// A solver with its trail and its problem.
#[derive(Drop)]
pub struct Pair {
    problem: Problem,
    solver: OrderSolver,
    trail: Trail,
}

impl Model for Pair {
    ghost use Rattle.order_solver.specs.Ordering.{SolverView};
    ghost use Rattle.solver_tests.specs.Along.{IsAlong};

    ghost Value = { SolverView };

    ghost view = { λ s. s.solver };

    ghost invariant = { λ s. IsAlong s.problem s.trail s.solver };
}

impl Pair {
    /// The solver of a problem, and an empty trail.
    pub fn new(alloc: Global, problem: Problem) -> Result<Pair, OutOfMemory> {
        let solver = OrderSolver::new(alloc, &problem)?;
        let trail = Trail::new(alloc, problem.vars)?;
        Ok(Pair {
            problem,
            solver,
            trail,
        })
    }

    /// How many levels there are.
    pub fn level(&self) -> u32 {
        self.trail.level()
    }

    /// Makes an unassigned literal of the problem true, on a level of its own; whether it was one.
    pub fn decide(&mut self, lit: Lit) -> bool {
        if !is_lit_over(lit, self.problem.vars) {
            return false;
        }
        if self.trail.value(lit).is_some() {
            return false;
        }
        self.trail.decide(lit);
        self.solver.assert_atom(lit);
        true
    }

    /// Keeps the first so many levels.
    pub fn undo_to(&mut self, level: u32) {
        self.trail.undo_to(level);
        let count = self.trail.len();
        self.solver.undo_to(count);
    }

    /// What the solver's `propagate` answers.
    pub fn propagate(&mut self, alloc: Global) -> Result<Step, OutOfMemory> {
        self.propagate_counted::<Brand>(alloc, Blank::new(1))
    }

    fn propagate_counted<L: Ledger>(
        &mut self,
        alloc: Global,
        blank: Blank,
    ) -> Result<Step, OutOfMemory>
        requires name { blank.name ≡ L.name }
        requires parts { blank.parts ≡ L.parts }
        requires some { 0 < L.parts }
    {
        let mut steps = Steps::<L>::new(blank);
        self.solver
            .propagate(alloc, &self.problem, &self.trail, &mut steps)
    }

    /// What the solver's `check` answers.
    pub fn check(&mut self, alloc: Global) -> Result<Option<Lits>, OutOfMemory> {
        self.check_counted::<Brand>(alloc, Blank::new(1))
    }

    fn check_counted<L: Ledger>(
        &mut self,
        alloc: Global,
        blank: Blank,
    ) -> Result<Option<Lits>, OutOfMemory>
        requires name { blank.name ≡ L.name }
        requires parts { blank.parts ≡ L.parts }
        requires some { 0 < L.parts }
    {
        let mut steps = Steps::<L>::new(blank);
        self.solver.check(alloc, &self.problem, &mut steps)
    }
}
