//! The laws of encodings.

ghost use Rattle.encode_match.specs.Encoding.{NoAssignmentMeansSafe, SpelledFails};
ghost use Rattle.encode_match.specs.Directions.{CyclesAgree, AssignmentsMatch, FailuresMatch, ChainEncodes};

use encode_order::choices_can_be_made;
use event_graph::{actions_are_nodes, blocks_are_sections, events_are_possible, events_are_static};
use run_laws::{runs_are_framed, started_creates_differ, started_threads_are_limited};
use run_model::creates_are_numbered;
use ssa_form::{earlier_parts_stay, scripts_can_be_taken};

/// An execution that an assignment matches is consistent exactly where the problem's graphs, with the edges of the atoms that are true,
/// have no cycle.
pub fn cycles_agree()
    ensures { CyclesAgree }
{}

/// Each consistent assignment of the problem that the chain makes of a checked program spells a candidate whose threads run as it says,
/// that is well made and fails; and what happens under the assignment matches it.
pub fn assignments_match()
    ensures { AssignmentsMatch }
{
    started_threads_are_limited();
    creates_are_numbered();
    runs_are_framed();
    events_are_static();
    events_are_possible();
    actions_are_nodes();
    blocks_are_sections();
}

/// Each failing execution of a checked program has an assignment that makes the clauses of the problem true, matches it, and spells it
/// up to the order of its pairs.
pub fn failures_match()
    ensures { FailuresMatch }
{
    started_threads_are_limited();
    creates_are_numbered();
    runs_are_framed();
    started_creates_differ();
    scripts_can_be_taken();
    earlier_parts_stay();
    events_are_static();
    events_are_possible();
    actions_are_nodes();
    blocks_are_sections();
    choices_can_be_made();
}

/// The problem that the chain makes of a checked program is its encoding: each consistent assignment spells one failing execution, and
/// each failing execution is spelled.
pub fn chain_encodes()
    ensures { ChainEncodes }
{
    events_are_static();
    events_are_possible();
    assignments_match();
    failures_match();
}

/// A problem without a consistent assignment is that of a program that does not fail; and the candidate that a consistent assignment
/// spells is an execution that the model allows and that fails.
pub fn encodings_decide()
    ensures without { NoAssignmentMeansSafe }
    ensures with { SpelledFails }
{}
