// The verdicts as status and text, with what is kept of them.
ghost use Rattle.std.specs.Prelude.{◌≡◌, IfOk, Some, option_map};
ghost use Rattle.c_check.specs.PlainNames.{cell_names};
ghost use Rattle.witness_text.specs.Spelling.{IsSpellable};
ghost use Rattle.dg_top.specs.Answers.{Safe, Unknown};
ghost use Rattle.dg_top.specs.Replies.{IsUnsafe, Spells, kept_in, kept_of};

use crate::reply::{Keeping, Reply, keep_in};
use crate::text::{put_failing_line, put_reports};
use axiom_model::Candidate;
use c_check::Checked;
use dg_base::{List, OutOfMemory};
use line_text::put;
use program_verdict::Failure;
use std::alloc::Global;
use verdict_run::Report;
use witness_text::print_witness;
use word_settings::FileName;

/// No execution fails.
pub fn safe(alloc: Global, kept: Option<Keeping>) -> Result<Reply, OutOfMemory>
    ensures { IfOk result (Spells Safe (option_map kept_of kept)) }
{
    let text = Vec::from_slice(alloc, b"SAFE\n")?;
    Ok(Reply {
        status: 0,
        text,
        kept,
    })
}

// A witness that is kept, where a file is named.
fn keep_witness(
    alloc: Global,
    file: &Option<FileName>,
    witness: &[u8],
) -> Result<Option<Keeping>, OutOfMemory>
    ensures { IfOk result (λ kept. option_map kept_of kept ≡ kept_in file.now (Some witness.now)) }
{
    let Some(name) = file else {
        return Ok(None);
    };
    let bytes = List::from_vec(Vec::from_slice(alloc, witness)?);
    Ok(Some(keep_in(alloc, name, bytes)?))
}

/// The failure's candidate is a failing execution of the program. Its witness is kept in the file, where one is named.
pub fn unsafe_at(
    alloc: Global,
    checked: &Checked,
    failure: &Failure,
    file: &Option<FileName>,
) -> Result<Reply, OutOfMemory>
    requires { IsSpellable checked.now.functions (cell_names checked.now.cells) failure.now.candidate }
    ensures { IfOk result (IsUnsafe checked.now failure.now file.now) }
{
    let witness = print_witness(alloc, checked, &failure.candidate)?;
    let mut text = Vec::new(alloc);
    put_failing_line(
        &mut text,
        b"UNSAFE",
        failure.handle,
        failure.place,
        failure.bound,
    )?;
    put(&mut text, witness.as_slice())?;
    let kept = keep_witness(alloc, file, witness.as_slice())?;
    Ok(Reply {
        status: 1,
        text,
        kept,
    })
}

/// Every worker is spent, and no verdict stands.
pub fn unknown(
    alloc: Global,
    reports: &[Report],
    kept: Option<Keeping>,
) -> Result<Reply, OutOfMemory>
    ensures { IfOk result (Spells (Unknown reports.now) (option_map kept_of kept)) }
{
    let mut text = Vec::from_slice(alloc, b"UNKNOWN\n")?;
    put_reports(&mut text, reports)?;
    Ok(Reply {
        status: 2,
        text,
        kept,
    })
}
