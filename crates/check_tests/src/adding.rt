// Hints that are added to a log.
use crate::cycles::three_nodes;
use crate::hinted::checked;
use crate::logs::{Told, eight_clauses, told_of};
use cnf_problem::Problem;
use hint_maker::add_hints;
use log_checker::check_log;
use log_text::read_log;
use std::alloc::Global;
use std::marker::Brand;
use std::sync::ledger::Blank;
use std::test::Fail;

const EIGHT: &str = "deagle-log 1\nmodel sc\nunroll 1\nvars 4\nclauses 9\nnodes 0\natoms 0\n";

const THREE: &str = "deagle-log 1\nmodel sc\nunroll 1\nvars 4\nclauses 3\nnodes 3\natoms 3\n";

// Logs of the eight clauses, and how many hints each lemma gets.
const TEXTS: &[(&str, Told, &[usize])] = &[
    (
        "0 0 u 2 3 0\n1 0 u 2 0\n2 0 u 3 0\n3 0 u 0\nend\n",
        Told::Accepted(4),
        &[2, 3, 3, 4],
    ),
    // lemmas with a literal that is true by the others: its reason alone
    (
        "0 0 u 1 0\n1 0 u 2 3 0\n2 0 u 2 0\n3 0 u 2 -4 0\n4 0 u 3 0\n5 0 u 0\nend\n",
        Told::Accepted(6),
        &[1, 2, 3, 1, 3, 4],
    ),
    // a clause of the problem; and behind the empty clause, which is false by itself
    (
        "0 0 u 2 3 4 0\n1 0 u 2 3 0\n2 0 u 2 0\n3 0 u 3 0\n4 0 u 0\n5 0 u 0\nend\n",
        Told::Accepted(6),
        &[1, 2, 3, 3, 4, 4],
    ),
];

// What a check by the hints tells of the log with its hints, and how many each lemma has; what a check of the log alone tells, where
// it is refused.
fn counted(
    alloc: Global,
    problem: &Problem,
    head: &str,
    behind: &str,
) -> Result<(Told, Vec<usize>), Fail> {
    let mut text = String::new(alloc);
    text.push_str(head)?;
    text.push_str(behind)?;
    let (_, log) = read_log(alloc, text.as_bytes())?;
    let mut counts = Vec::new(alloc);
    match check_log(alloc, problem, &log) {
        Ok(_) => {
            let hinted = add_hints(alloc, problem, &log)?;
            for hints in hinted.hints.as_slice() {
                counts.push(hints.len())?;
            }
            let told = checked::<Brand>(alloc, problem, &hinted, Blank::new(1));
            Ok((told, counts))
        }
        Err(refused) => Ok((told_of(refused), counts)),
    }
}

#[test]
fn hints_for_eight_clauses(rt: HostRuntime) -> Result<(), Fail> {
    let problem = eight_clauses(rt.alloc())?;
    for (behind, wanted, many) in TEXTS {
        let (told, counts) = counted(rt.alloc(), &problem, EIGHT, behind)?;
        assert_eq!(rt; told, *wanted, "at {behind}");
        assert_eq!(rt; counts.as_slice(), *many, "at {behind}");
    }
    Ok(())
}

// The cycle lemma has no hints, and is named by those of the empty clause.
#[test]
fn hints_behind_a_cycle_lemma(rt: HostRuntime) -> Result<(), Fail> {
    let problem = three_nodes(rt.alloc())?;
    let (told, counts) = counted(rt.alloc(), &problem, THREE, "0 0 c -2 -3 0\n1 0 u 0\nend\n")?;
    assert_eq!(rt; told, Told::Accepted(2));
    assert_eq!(rt; counts.as_slice(), [0, 3].as_slice());
    Ok(())
}
