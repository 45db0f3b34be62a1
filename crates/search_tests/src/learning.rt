ghost use Rattle.std.specs.Prelude.{◌≡◌, ◌≤◌, ◌<◌, ◌⊎◌, ℕ, Contains, IsTrue, slice_get, take, length, Some};
ghost use Rattle.dg_base.specs.declared.Lit.{Lit as Literal};
ghost use Rattle.cnf_problem.specs.Literals.{var as variable};
ghost use Rattle.cnf_problem.specs.Chains.{IsFalse, AllFalse, OthersFalse};
ghost use Rattle.trail_state.specs.Trails.{Forced, true_lits, level, level_of};
ghost use Rattle.trail_state.specs.Forcing.{Forces, AreForced};

use cnf_problem::{Clauses, negated, var};
use conflict_learn::{Learnt, learn};
use dg_base::{Lit, OutOfMemory};
use std::alloc::Global;
use std::test::Fail;
use trail_state::{ClauseId, Reason, Reasons, Trail};

mod driving;

// Clauses that serve as reasons.
#[derive(Drop)]
struct Rules {
    clauses: Clauses,
}

impl Reasons for Rules {
    ghost clauses = { λ r. r.clauses };

    fn clause(&self, reason: Reason) -> &[Lit] {
        self.clauses.get(reason.0 as usize)
    }
}

// Whether the literal is one of the trail's first `n`.
fn stands_before(trail: &Trail, lit: Lit, n: u32) -> bool
    requires { n ≤ length trail.now.entries }
    ensures { IsTrue result → Contains (true_lits (take n trail.now.entries)) lit }
{
    for k in 0..n {
        if trail.lit_at(k) == lit {
            return true;
        }
    }
    false
}

// Whether a literal is this one, or false by the trail's first `n` literals.
fn is_or_before(trail: &Trail, other: Lit, lit: Lit, n: u32) -> bool
    requires { n ≤ length trail.now.entries }
    ensures { IsTrue result → (other ≡ lit) ⊎ IsFalse (true_lits (take n trail.now.entries)) other }
{
    if other == lit {
        return true;
    }
    stands_before(trail, negated(other), n)
}

// Whether each literal of the clause but this one is false by the trail's first `n` literals.
fn others_before(trail: &Trail, clause: &[Lit], lit: Lit, n: u32) -> bool
    requires { n ≤ length trail.now.entries }
    ensures { IsTrue result → OthersFalse (true_lits (take n trail.now.entries)) clause.now lit }
{
    for i in 0..clause.len() {
        if !is_or_before(trail, clause[i], lit, n) {
            return false;
        }
    }
    true
}

// Whether each literal of the clause is false on the trail.
fn all_false(trail: &Trail, clause: &[Lit]) -> bool
    ensures { IsTrue result → AllFalse (true_lits trail.now.entries) clause.now }
{
    for i in 0..clause.len() {
        if !stands_before(trail, negated(clause[i]), trail.len()) {
            return false;
        }
    }
    true
}

// Whether the clause has the literal.
fn has(clause: &[Lit], lit: Lit) -> bool
    ensures { IsTrue result → Contains clause.now lit }
{
    for i in 0..clause.len() {
        if clause[i] == lit {
            return true;
        }
    }
    false
}

// Whether the reason of the literal at a place, if it has one, forces it.
fn is_forced(trail: &Trail, rules: &Rules, i: u32) -> bool
    requires { i < length trail.now.entries }
    ensures { IsTrue result → (id : ℕ) → (l : Literal) → slice_get trail.now.entries i ≡ Some (Forced l id) → Forces rules.now.clauses id (true_lits (take i trail.now.entries)) l }
{
    let _count = trail.len();
    let lit = trail.lit_at(i);
    let Some(reason) = trail.reason_of(lit) else {
        return true;
    };
    if reason.0 as usize >= rules.clauses.len() {
        return false;
    }
    let clause = rules.clause(reason);
    has(clause, lit) && others_before(trail, clause, lit, i)
}

// Whether each literal that has a reason is forced by it.
fn are_forced(trail: &Trail, rules: &Rules) -> bool
    ensures { IsTrue result → AreForced rules.now.clauses trail.now.entries }
{
    for i in 0..trail.len() {
        if !is_forced(trail, rules, i) {
            return false;
        }
    }
    true
}

// Whether a clause whose literals are false has one of the present level.
fn has_last(trail: &Trail, clause: &[Lit]) -> bool
    requires { AllFalse (true_lits trail.now.entries) clause.now }
    ensures { IsTrue result → (l : Literal) × Contains clause.now l × (level_of (variable l) trail.now.entries ≡ level trail.now.entries) }
{
    for i in 0..clause.len() {
        if trail.level_of(clause[i]) == trail.level() {
            return true;
        }
    }
    false
}

// A literal by its variable, negative where it is negated.
fn lit(number: i32) -> Lit {
    Lit(number.unsigned_abs().wrapping_mul(2) | u32::from(number < 0))
}

// Makes a literal true: by a decision, or by the clause with this number.
fn take_step(trail: &mut Trail, lit: Lit, reason: Option<u32>) -> bool {
    if var(lit) == 0 || var(lit) > trail.vars() {
        return false;
    }
    match trail.value(lit) {
        Some(_) => return false,
        None => {}
    }
    match reason {
        None => trail.decide(lit),
        Some(id) => trail.assign(lit, ClauseId(id)),
    }
    true
}

// Clauses, what was made true with its reason, the number of the clause that is false, and what is
// to be learnt.
#[derive(Drop)]
struct Case<'a> {
    clauses: &'a [&'a [i32]],
    trail: &'a [(i32, Option<u32>)],
    conflict: usize,
    want: &'a [i32],
    back: u32,
}

fn clause_of(alloc: Global, row: &[i32]) -> Result<Vec<Lit>, OutOfMemory> {
    let mut clause = Vec::new(alloc);
    for number in row {
        clause.push(lit(*number))?;
    }
    Ok(clause)
}

fn push_all(clauses: &mut Clauses, alloc: Global, rows: &[&[i32]]) -> Result<(), OutOfMemory> {
    for row in rows {
        clauses.push(&clause_of(alloc, row)?)?;
    }
    Ok(())
}

// What is learnt from a clause, or nothing where `learn` does not take it.
fn learnt_by(
    alloc: Global,
    trail: &Trail,
    rules: &Rules,
    conflict: usize,
) -> Result<Option<Learnt>, OutOfMemory> {
    if conflict >= rules.clauses.len() || trail.level() == 0 || !are_forced(trail, rules) {
        return Ok(None);
    }
    let conflict = rules.clauses.get(conflict);
    if !all_false(trail, conflict) || !has_last(trail, conflict) {
        return Ok(None);
    }
    let learnt = learn(alloc, trail, rules, conflict)?;
    Ok(Some(learnt))
}

// What is learnt, or nothing where the case is not one that `learn` takes.
fn learnt_from(alloc: Global, case: &Case) -> Result<Option<Learnt>, OutOfMemory> {
    let mut clauses = Clauses::new(alloc);
    push_all(&mut clauses, alloc, case.clauses)?;
    let rules = Rules { clauses };
    let mut trail = Trail::new(alloc, 9)?;
    for (number, reason) in case.trail {
        if !take_step(&mut trail, lit(*number), *reason) {
            return Ok(None);
        }
    }
    learnt_by(alloc, &trail, &rules, case.conflict)
}

// Whether the literals are those of the row, in any order.
fn is_row(lits: &[Lit], row: &[i32]) -> bool {
    lits.len() == row.len() && row.iter().all(|number| has(lits, lit(*number)))
}

fn is_wanted(learnt: &Learnt, case: &Case) -> bool {
    learnt.back == case.back && is_row(learnt.lits.as_slice(), case.want)
}

fn passes(alloc: Global, case: &Case) -> Result<bool, OutOfMemory> {
    match learnt_from(alloc, case)? {
        Some(learnt) => Ok(is_wanted(&learnt, case)),
        None => Ok(false),
    }
}

// All signs over three variables, and what is learnt from them in turn.
fn all_signs() -> &'static [&'static [i32]] {
    &[
        &[1, 2, 3],
        &[1, 2, -3],
        &[1, -2, 3],
        &[1, -2, -3],
        &[-1, 2, 3],
        &[-1, 2, -3],
        &[-1, -2, 3],
        &[-1, -2, -3],
        &[1, 2],
        &[1],
    ]
}

#[test]
fn refutes_all_signs(rt: HostRuntime) -> Result<(), Fail> {
    let first = Case {
        clauses: all_signs(),
        trail: &[(-1, None), (-2, None), (3, Some(0))],
        conflict: 1,
        want: &[1, 2],
        back: 1,
    };
    assert!(rt; passes(rt.alloc(), &first)?);
    let second = Case {
        clauses: all_signs(),
        trail: &[(-1, None), (2, Some(8)), (3, Some(2))],
        conflict: 3,
        want: &[1],
        back: 0,
    };
    assert!(rt; passes(rt.alloc(), &second)?);
    // The literal of level 0 vanishes.
    let third = Case {
        clauses: all_signs(),
        trail: &[(1, Some(9)), (-2, None), (3, Some(4))],
        conflict: 5,
        want: &[2],
        back: 0,
    };
    assert!(rt; passes(rt.alloc(), &third)?);
    Ok(())
}

#[test]
fn stops_at_the_first_unique_implication_point(rt: HostRuntime) -> Result<(), Fail> {
    let levels = Case {
        clauses: &[&[-4, -1, 5], &[-5, -3, 6], &[-6, -5, -2]],
        trail: &[
            (1, None),
            (2, None),
            (3, None),
            (4, None),
            (5, Some(0)),
            (6, Some(1)),
        ],
        conflict: 2,
        want: &[-5, -3, -2],
        back: 3,
    };
    assert!(rt; passes(rt.alloc(), &levels)?);
    let repeats = Case {
        clauses: &[&[-1, -1, 2, 2], &[-2, -2, -1]],
        trail: &[(1, None), (2, Some(0))],
        conflict: 1,
        want: &[-1],
        back: 0,
    };
    assert!(rt; passes(rt.alloc(), &repeats)?);
    Ok(())
}
