// Propagation compared with plain scans of all clauses.
ghost use Rattle.std.specs.Prelude.{◌≡◌, ◌<◌, ℕ, IfOk, IfSome, OnOk, IsTrue};
ghost use Rattle.cnf_problem.specs.declared.problem.Problem.{Problem as TheProblem};
ghost use Rattle.cnf_problem.specs.Literals.{IsOver};
ghost use Rattle.cnf_problem.specs.Chains.{IsUnassigned};
ghost use Rattle.trail_state.specs.Trails.{true_lits, level};
ghost use Rattle.clause_store.specs.Stores.{IsSettled, IsUndone, IsWatching, StoreView, WatchesBelow};

use clause_store::{Store, watches_are_kept};
use cnf_problem::{Clauses, Gates, Problem, negated};
use dg_base::{List, Lit, OutOfMemory};
use std::alloc::Global;
use std::test::Fail;
use trail_state::{ClauseId, Trail};

// Numbers from a linear congruential generator (Press et al. 1992).
#[derive(Drop)]
struct Random {
    state: u32,
}

impl Random {
    // A number below `n`.
    fn below(&mut self, n: u32) -> u32
        requires { 0 < n }
        ensures { result < n }
    {
        self.state = self.state.wrapping_mul(1664525).wrapping_add(1013904223);
        (self.state >> 8) % n
    }

    // A literal of one of the first so many variables.
    fn lit(&mut self, vars: u32) -> Lit
        requires some { 0 < vars }
        requires few { vars < 1000 }
        ensures { IsOver vars result }
    {
        Lit(2 + self.below(2 * vars))
    }
}

// Puts two or three literals behind the clauses of a problem in the making. Some may be of one
// variable.
fn push_clause(gates: &mut Gates, random: &mut Random, vars: u32) -> Result<(), OutOfMemory>
    requires some { 0 < vars }
    requires few { vars < 1000 }
    requires vars { gates.old.vars ≡ vars }
    ensures { gates.new.vars ≡ vars }
{
    let (a, b, c) = (random.lit(vars), random.lit(vars), random.lit(vars));
    if random.below(4) == 0 {
        gates.clause(&[a, b])
    } else {
        gates.clause(&[a, b, c])
    }
}

fn random_problem(alloc: Global, random: &mut Random, vars: u32) -> Result<Problem, OutOfMemory>
    requires some { 0 < vars }
    requires few { vars < 1000 }
{
    let mut gates = Gates::new(alloc)?;
    let mut made = 1;
    'variables: while made < vars {
        gates.fresh()?;
        made += 1;
    }
    'clauses: for _ in 0..2 * vars + random.below(2 * vars) {
        push_clause(&mut gates, random, vars)?;
    }
    gates.finish(List::new(alloc), List::new(alloc), List::new(alloc))
}

fn has(lits: &[Lit], lit: Lit) -> bool {
    lits.iter().any(|other| *other == lit)
}

fn has_all(lits: &[Lit], others: &[Lit]) -> bool {
    others.iter().all(|lit| has(lits, *lit))
}

// The literals that are true.
fn lits_of(alloc: Global, trail: &Trail) -> Result<Vec<Lit>, OutOfMemory> {
    let mut lits = Vec::new(alloc);
    for i in 0..trail.len() {
        lits.push(trail.lit_at(i))?;
    }
    Ok(lits)
}

// How many different literals of the clause are not false, up to two, and the last of them; nothing
// where a literal is true.
fn left_of(clause: &[Lit], lits: &[Lit]) -> Option<(usize, Lit)> {
    let mut left = (0, Lit(0));
    for lit in clause {
        if has(lits, *lit) {
            return None;
        }
        if !has(lits, negated(*lit)) && *lit != left.1 {
            left = (if left.0 == 0 { 1 } else { 2 }, *lit);
        }
    }
    Some(left)
}

// Adds the literals that unit clauses make true, until some clause is false, which is answered, or
// no round changes anything.
fn scan(clauses: &Clauses, vars: u32, lits: &mut Vec<Lit>) -> Result<bool, OutOfMemory> {
    for _ in 0..1 + vars as usize {
        for i in 0..clauses.len() {
            match left_of(clauses.get(i), lits) {
                Some((0, _)) => return Ok(true),
                Some((1, lit)) => lits.push(lit)?,
                _ => {}
            }
        }
    }
    Ok(false)
}

// Whether the clause with this number is false.
fn is_refuted(clauses: &Clauses, id: ClauseId, lits: &[Lit]) -> bool {
    let i = id.0 as usize;
    i < clauses.len() && clauses.get(i).iter().all(|lit| has(lits, negated(*lit)))
}

// What the test keeps of a search: all clauses, the conflicts so far, and whether a scan ever
// differed.
#[derive(Drop)]
struct Notes {
    clauses: Clauses,
    random: Random,
    conflicts: u32,
    differs: bool,
}

// Whether a scan finds what propagation answered: a clause that is false, or the same true literals.
fn agrees(
    clauses: &Clauses,
    vars: u32,
    mut lits: Vec<Lit>,
    conflict: Option<ClauseId>,
    made: &[Lit],
) -> Result<bool, OutOfMemory> {
    let refuted = scan(clauses, vars, &mut lits)?;
    Ok(match conflict {
        Some(id) => refuted && is_refuted(clauses, id, made),
        None => !refuted && has_all(&lits, made) && has_all(made, &lits),
    })
}

// Decides on a free literal, of either sign. Whether there is one.
fn decide(random: &mut Random, trail: &mut Trail) -> bool
    ensures { (p : TheProblem) (s : StoreView) → IsWatching p s trail.old → IsSettled p s trail.old → IsWatching p s trail.new }
{
    watches_are_kept();
    let _count = trail.len();
    let Some(lit) = choose(random, trail) else {
        return false;
    };
    trail.decide(lit);
    true
}

// The other sign of a free literal, or the same.
fn either(random: &mut Random, trail: &Trail, lit: Lit) -> Lit
    requires over { IsOver trail.now.vars lit }
    requires free { IsUnassigned (true_lits trail.now.entries) lit }
    ensures over { IsOver trail.now.vars result }
    ensures free { IsUnassigned (true_lits trail.now.entries) result }
{
    let _vars = trail.vars();
    if random.below(2) == 0 {
        lit
    } else {
        negated(lit)
    }
}

// A free literal, of either sign.
fn choose(random: &mut Random, trail: &Trail) -> Option<Lit>
    ensures { IfSome result (λ l. IsOver trail.now.vars l × IsUnassigned (true_lits trail.now.entries) l) }
{
    match trail.pick() {
        Some(lit) => Some(either(random, trail, lit)),
        None => None,
    }
}

// Undoes the trail to some lower level. Whether there is one.
fn undo_some(random: &mut Random, trail: &mut Trail) -> bool
    ensures { IsTrue result → (n : ℕ) × (n < level trail.old.entries) × IsUndone n trail.old trail.new }
{
    let level = trail.level();
    if level == 0 {
        return false;
    }
    trail.undo_to(random.below(level));
    true
}

// Adds two or three literals at level 0, and nothing above it.
fn add_some(notes: &mut Notes, store: &mut Store, trail: &Trail) -> Result<(), OutOfMemory>
    requires { (p : TheProblem) × IsWatching p store.old trail.now }
    ensures { OnOk result ((p : TheProblem) → IsWatching p store.old trail.now → IsWatching p store.new trail.now) }
{
    let vars = trail.vars();
    if trail.level() > 0 || vars == 0 || vars >= 1000 {
        return Ok(());
    }
    let clause = [notes.random.lit(vars), notes.random.lit(vars)];
    store.add(&clause, trail)?;
    notes.clauses.push(&clause)?;
    Ok(())
}

// Undoes the trail to some lower level, and adds a clause there if that is 0. Whether there is one.
fn go_back(notes: &mut Notes, store: &mut Store, trail: &mut Trail) -> Result<bool, OutOfMemory>
    requires { (p : TheProblem) × WatchesBelow p store.old trail.old }
    ensures { IfOk result (λ more. IsTrue more → (p : TheProblem) → WatchesBelow p store.old trail.old → IsWatching p store.new trail.new) }
{
    if !undo_some(&mut notes.random, trail) {
        return Ok(false);
    }
    add_some(notes, store, trail)?;
    Ok(true)
}

// Propagates and compares; then undoes the trail after a conflict, and elsewhere decides. Whether
// there is more to do.
fn step(
    alloc: Global,
    problem: &Problem,
    notes: &mut Notes,
    store: &mut Store,
    trail: &mut Trail,
) -> Result<bool, OutOfMemory>
    requires { IsWatching problem.now store.old trail.old }
    ensures { IfOk result (λ more. IsTrue more → IsWatching problem.now store.new trail.new) }
{
    let lits = lits_of(alloc, trail)?;
    let conflict = store.propagate(problem, trail);
    let made = lits_of(alloc, trail)?;
    if !agrees(&notes.clauses, problem.vars, lits, conflict, &made)? {
        notes.differs = true;
        return Ok(false);
    }
    match conflict {
        None => Ok(decide(&mut notes.random, trail)),
        Some(_) => {
            notes.conflicts = notes.conflicts.wrapping_add(1);
            go_back(notes, store, trail)
        }
    }
}

// A search of one random problem, in some steps.
fn search(alloc: Global, seed: u32, vars: u32) -> Result<Notes, OutOfMemory>
    requires some { 0 < vars }
    requires few { vars < 1000 }
{
    let mut random = Random { state: seed };
    let problem = random_problem(alloc, &mut random, vars)?;
    let mut clauses = Clauses::new(alloc);
    for i in 0..problem.clauses.len() {
        clauses.push(problem.clauses.get(i))?;
    }
    let mut notes = Notes {
        clauses,
        random,
        conflicts: 0,
        differs: false,
    };
    let mut store = Store::new(alloc, &problem)?;
    let mut trail = Trail::new(alloc, problem.vars)?;
    'steps: for _ in 0..40 {
        if !step(alloc, &problem, &mut notes, &mut store, &mut trail)? {
            break;
        }
    }
    Ok(notes)
}

#[test]
fn propagation_agrees_with_plain_scans(rt: HostRuntime) -> Result<(), Fail> {
    let mut conflicts = 0u32;
    for seed in 0..48 {
        let notes = search(rt.alloc(), seed, 6 + seed % 5)?;
        assert!(rt; !notes.differs, "at {seed}");
        conflicts = conflicts.wrapping_add(notes.conflicts);
    }
    assert!(rt; conflicts >= 48, "{conflicts} conflicts");
    Ok(())
}
