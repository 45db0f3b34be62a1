use cnf_problem::{negated, positive, var};
use dg_base::OutOfMemory;
use std::alloc::Global;
use std::test::Fail;
use trail_state::{ClauseId, Lits, Trail, luby};

// A trail with a literal at level 0 and a decision.
fn small_trail(alloc: Global) -> Result<Trail, OutOfMemory> {
    let mut trail = Trail::new(alloc, 4)?;
    if trail.value(positive(1)).is_none() {
        trail.assign(positive(1), ClauseId(7));
    }
    if trail.value(negated(positive(2))).is_none() {
        trail.decide(negated(positive(2)));
    }
    Ok(trail)
}

#[test]
fn entries_are_taken_in_turn(rt: HostRuntime) -> Result<(), Fail> {
    let mut trail = small_trail(rt.alloc())?;
    assert_eq!(rt; trail.take_next(), Some(positive(1)));
    assert_eq!(rt; trail.take_next(), Some(negated(positive(2))));
    assert_eq!(rt; trail.take_next(), None);
    Ok(())
}

#[test]
fn an_undone_level_is_forgotten(rt: HostRuntime) -> Result<(), Fail> {
    let mut trail = small_trail(rt.alloc())?;
    assert_eq!(rt; trail.vars(), 4);
    assert_eq!(rt; trail.level(), 1);
    assert_eq!(rt; trail.value(positive(2)), Some(false));
    trail.undo_to(0);
    assert_eq!(rt; trail.len(), 1);
    assert_eq!(rt; trail.value(positive(2)), None);
    Ok(())
}

// Decides what is picked, up to so many times.
fn decide_picks(trail: &mut Trail, times: u32) {
    for _ in 0..times {
        if let Some(lit) = trail.pick() {
            trail.decide(lit);
        }
    }
}

// The variable that is picked, or 0.
fn picked(trail: &Trail) -> u32 {
    match trail.pick() {
        Some(lit) => var(lit),
        None => 0,
    }
}

#[test]
fn the_most_active_is_picked(rt: HostRuntime) -> Result<(), Fail> {
    let mut trail = Trail::new(rt.alloc(), 300)?;
    trail.bump(17);
    trail.bump(250);
    trail.bump(250);
    assert_eq!(rt; picked(&trail), 250);
    decide_picks(&mut trail, 1);
    assert_eq!(rt; picked(&trail), 17);
    decide_picks(&mut trail, 300);
    assert_eq!(rt; trail.pick(), None);
    assert_eq!(rt; trail.level(), 300);
    trail.undo_to(1);
    assert_eq!(rt; picked(&trail), 17);
    trail.undo_to(0);
    assert_eq!(rt; picked(&trail), 250);
    Ok(())
}

#[test]
fn terms_of_lubys_sequence(rt: HostRuntime) {
    let want = [1, 1, 2, 1, 1, 2, 4, 1, 1, 2, 1, 1, 2, 4, 8];
    let mut i = 0;
    for term in want {
        if i < 15 {
            i += 1;
        }
        assert_eq!(rt; luby(i), term);
    }
    assert_eq!(rt; luby(0), 0);
    assert_eq!(rt; luby(u32::MAX), 1 << 31);
}

#[test]
fn lists_grow_beyond_their_place(rt: HostRuntime) -> Result<(), Fail> {
    let mut lits = Lits::new(rt.alloc());
    for v in 1..21 {
        lits.push(positive(v))?;
    }
    assert_eq!(rt; lits.len(), 20);
    assert_eq!(rt; lits.as_slice().first().copied(), Some(positive(1)));
    assert_eq!(rt; lits.as_slice().last().copied(), Some(positive(20)));
    Ok(())
}
