// Laws of a program's log.
ghost use Rattle.program_log.specs.Laws.{AcceptedIsAlone, AcceptedIsSafe, KeptIsAccepted, MigratedIsSafe};

use cnf_problem::refuted_has_no_assignment;
use encode_match::{chain_encodes, encodings_decide};
use log_checker::{evidence_suffices, hints_are_chains};
use log_text::one_log;

/// Where a log may be accepted, or kept anew, no execution of the program fails under the model.
pub fn accepted_is_safe()
    ensures accepted { AcceptedIsSafe }
    ensures migrated { MigratedIsSafe }
{
    chain_encodes();
    encodings_decide();
    refuted_has_no_assignment();
    hints_are_chains();
}

/// A kept text whose last entry is the empty clause may be accepted.
pub fn kept_is_accepted()
    ensures { KeptIsAccepted }
{}

/// For one problem of a program, a text that may be accepted is answered with nothing else.
pub fn accepted_is_alone()
    ensures { AcceptedIsAlone }
{
    one_log();
    evidence_suffices();
}
