// The job `replay`: whether a witness is a failing execution of a program.
ghost use Rattle.std.specs.Prelude.{◌≡◌, ◌≢◌, ◌↔◌, ◌≤◌, ◌∷◌, [], None, IfOk, IsTrue};
ghost use Rattle.c_check.specs.WellFormed.{IsChecked};
ghost use Rattle.c_check.specs.PlainNames.{HasPlainNames, cell_names};
ghost use Rattle.witness_text.specs.Spelling.{Spells};
ghost use Rattle.word_settings.specs.declared.settings.Job.TheVariants.{Replay};
ghost use Rattle.dg_top.specs.Answers.{IsAnswer, Rejected};
ghost use Rattle.dg_top.specs.Replies as replies;
ghost use Rattle.dg_top.specs.Replies.{IsOneOf, OfWitness};

use crate::reply::{Reply, refuse};
use crate::witness_reply::{bad_witness, failing_at, rejected};
use axiom_model::{Candidate, MemoryModel};
use c_check::Checked;
use c_program::{names_are_plain, read_program};
use dg_base::OutOfMemory;
use exec_check::{Reject, check_execution};
use std::alloc::Global;
use witness_text::{WitnessFault, read_witness};
use word_settings::Settings;

// Whether the candidate is not refused, but memory is out.
fn lacks_memory(reject: &Reject) -> bool
    ensures { IsTrue result ↔ (reject.now ≡ Reject.OutOfMemory) }
{
    match reject {
        Reject::OutOfMemory => true,
        _ => false,
    }
}

// The candidate is no failing execution, unless memory is out.
fn reject(alloc: Global, checked: &Checked, reject: &Reject) -> Result<Reply, OutOfMemory>
    ensures { IfOk result (λ r. replies.Spells (Rejected checked.now reject.now) None r × (reject.now ≢ Reject.OutOfMemory)) }
{
    if lacks_memory(reject) {
        return Err(OutOfMemory);
    }
    rejected(alloc, checked, reject)
}

// Whether the candidate fails: it was read from the witness.
fn replay_candidate(
    alloc: Global,
    model: MemoryModel,
    checked: &Checked,
    witness: &[u8],
    candidate: &Candidate,
) -> Result<Reply, OutOfMemory>
    requires checked { IsChecked checked.now }
    requires spelled { Spells checked.now.functions (cell_names checked.now.cells) candidate.now witness.now }
    ensures { IfOk result (IsOneOf (OfWitness model checked.now witness.now)) }
{
    let _witness = witness;
    match check_execution(alloc, checked, model, candidate) {
        Ok(failing) => failing_at(alloc, failing.handle, failing.place, failing.bound),
        Err(why) => reject(alloc, checked, &why),
    }
}

// What the witness is for the program.
fn replay_witness(
    alloc: Global,
    model: MemoryModel,
    checked: &Checked,
    witness: &[u8],
) -> Result<Reply, OutOfMemory>
    requires checked { IsChecked checked.now }
    requires names { HasPlainNames checked.now.functions (cell_names checked.now.cells) }
    ensures { IfOk result (IsOneOf (OfWitness model checked.now witness.now)) }
{
    match read_witness(alloc, checked, witness) {
        Ok(candidate) => replay_candidate(alloc, model, checked, witness, &candidate),
        Err(WitnessFault::WitnessText(line)) => bad_witness(alloc, line),
        Err(WitnessFault::OutOfMemory) => Err(OutOfMemory),
    }
}

/// The first refusal of the text, or what the witness is for its program.
pub fn replay(
    alloc: Global,
    settings: &Settings,
    text: &[u8],
    witness: &[u8],
) -> Result<Reply, OutOfMemory>
    requires job { settings.now.job ≡ Replay }
    requires bound { (1 ≤ settings.now.bound) × (settings.now.bound ≤ 64) }
    ensures { IfOk result (IsOneOf (IsAnswer settings.now (text.now ∷ witness.now ∷ []))) }
{
    match read_program(alloc, text, settings.bound, settings.full) {
        Ok(checked) => {
            names_are_plain();
            replay_witness(alloc, settings.model, &checked, witness)
        }
        Err(refusal) => refuse(alloc, &refusal),
    }
}
