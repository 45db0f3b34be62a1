ghost use Rattle.std.specs.Prelude.{◌≡◌, ◌≤◌, ◌<◌, ℕ, suc, true, false, [], ◌∷◌, length, Contains, IfOk};
ghost use Rattle.dg_base.specs.declared.Lit.{Lit as Literal};
ghost use Rattle.cnf_problem.specs.Literals.{var as variable};
ghost use Rattle.trail_state.specs.Trails.{true_lits, level, IsAssigned, IsWell};
ghost use Rattle.trail_state.specs.Forcing.{AreForced};
ghost use Rattle.conflict_learn.specs.Marking.{is_marked, is_last, AreMarks, AddsMarks, StillFollow, LastBelow, IsCollected};

use crate::learning::Learnt;
use cnf_problem::{negated, var};
use dg_base::{Lit, OutOfMemory};
use std::alloc::Global;
use trail_state::{Lits, Reasons, Trail};

// A clause whose literals are false on the trail, by its variables. Literals of level 0 are left
// out: they are false by reasons alone.
#[derive(Drop)]
pub struct Resolvent {
    // for each variable, whether the clause has it
    pub marked: Vec<bool>,
    // how many literals of the last level it has
    pub last: u32,
}

impl Resolvent {
    // The empty clause.
    pub fn new(alloc: Global, trail: &Trail) -> Result<Resolvent, OutOfMemory>
        ensures well { IsWell trail.now }
        ensures marks { IfOk result (λ it. AreMarks trail.now it.marked.items it.last) }
    {
        let _count = trail.len();
        let size = trail.vars() as usize + 1;
        Ok(Resolvent {
            marked: vec![in alloc; false; size]?,
            last: 0,
        })
    }

    // Adds a literal of an assigned variable.
    pub fn mark(&mut self, trail: &Trail, lit: Lit)
        requires well { IsWell trail.now }
        requires marks { AreMarks trail.now self.old.marked.items self.old.last }
        requires assigned { IsAssigned trail.now.entries (variable lit) }
        ensures marks { AreMarks trail.now self.new.marked.items self.new.last }
        ensures adds { AddsMarks trail.now.entries self.old.marked.items self.new.marked.items (lit ∷ []) }
        ensures grows { self.old.last ≤ self.new.last }
    {
        let at = var(lit) as usize;
        let level = trail.level_of(lit);
        if level == 0 || self.marked[at] {
            return;
        }
        self.marked[at] = true;
        if level == trail.level() {
            self.last += 1;
        }
    }

    // Adds the literals of a clause.
    pub fn add(&mut self, trail: &Trail, clause: &[Lit])
        requires well { IsWell trail.now }
        requires marks { AreMarks trail.now self.old.marked.items self.old.last }
        requires assigned { (l : Literal) → Contains clause.now l → IsAssigned trail.now.entries (variable l) }
        ensures marks { AreMarks trail.now self.new.marked.items self.new.last }
        ensures adds { AddsMarks trail.now.entries self.old.marked.items self.new.marked.items clause.now }
        ensures grows { self.old.last ≤ self.new.last }
    {
        for lit in clause {
            self.mark(trail, *lit);
        }
    }

    // Takes away a marked literal of the last level.
    pub fn unmark(&mut self, trail: &Trail, lit: Lit)
        requires well { IsWell trail.now }
        requires marks { AreMarks trail.now self.old.marked.items self.old.last }
        requires listed { Contains (true_lits trail.now.entries) lit }
        requires marked { is_last self.old.marked.items trail.now.entries lit ≡ true }
        ensures marks { AreMarks trail.now self.new.marked.items self.new.last }
        ensures gone { is_marked self.new.marked.items lit ≡ false }
        ensures others { (l : Literal) → (variable l ≡ variable lit → ⊥) → is_marked self.new.marked.items l ≡ is_marked self.old.marked.items l }
        ensures fewer { suc self.new.last ≡ self.old.last }
    {
        self.marked[var(lit) as usize] = false;
        self.last -= 1;
    }

    // Resolves the literal of entry `i` away, if the clause has it.
    pub fn visit<R: Reasons>(&mut self, trail: &Trail, reasons: &R, i: u32)
        requires well { IsWell trail.now }
        requires marks { AreMarks trail.now self.old.marked.items self.old.last }
        requires within { i < length trail.now.entries }
        requires below { LastBelow trail.now.entries self.old.marked.items (suc i) }
        requires several { 1 < self.old.last }
        requires forced { AreForced (R.clauses reasons.now) trail.now.entries }
        ensures marks { AreMarks trail.now self.new.marked.items self.new.last }
        ensures below { LastBelow trail.now.entries self.new.marked.items i }
        ensures some { 0 < self.new.last }
        ensures follow { StillFollow (R.clauses reasons.now) trail.now.entries self.old.marked.items self.new.marked.items }
    {
        let lit = trail.lit_at(i);
        if !self.marked[var(lit) as usize] {
            return;
        }
        // Only a decision has no reason, and it is older than all others of its level.
        let Some(reason) = trail.reason_of(lit) else {
            return;
        };
        self.add(trail, reasons.clause(reason));
        self.unmark(trail, lit);
    }

    // Resolves literals away, the newest first, until one of the last level is left.
    pub fn reduce<R: Reasons>(&mut self, trail: &Trail, reasons: &R)
        requires well { IsWell trail.now }
        requires marks { AreMarks trail.now self.old.marked.items self.old.last }
        requires some { 0 < self.old.last }
        requires forced { AreForced (R.clauses reasons.now) trail.now.entries }
        ensures marks { AreMarks trail.now self.new.marked.items self.new.last }
        ensures one { self.new.last ≡ 1 }
        ensures follow { StillFollow (R.clauses reasons.now) trail.now.entries self.old.marked.items self.new.marked.items }
    {
        let mut i = trail.len();
        while self.last > 1 {
            i -= 1;
            self.visit(trail, reasons, i);
        }
    }

    // The clause, with the greatest level of its literals below the last.
    pub fn learnt(&self, alloc: Global, trail: &Trail) -> Result<Learnt, OutOfMemory>
        requires well { IsWell trail.now }
        requires marks { AreMarks trail.now self.now.marked.items self.now.last }
        requires above { 0 < level trail.now.entries }
        ensures { IfOk result (λ it. IsCollected trail.now.entries self.now.marked.items it.lits it.back) }
    {
        let mut lits = Lits::new(alloc);
        let mut back: u32 = 0;
        let mut i = trail.len();
        while i > 0 {
            i -= 1;
            let lit = trail.lit_at(i);
            if self.marked[var(lit) as usize] {
                lits.push(negated(lit))?;
                let level = trail.level_of(lit);
                if level < trail.level() {
                    back = back.max(level);
                }
            }
        }
        Ok(Learnt { lits, back })
    }
}
