//! The text of a search's log.

ghost use Rattle.std.specs.Prelude.{IfOk};
ghost use Rattle.log_checker.specs.Goodness.{IsGood};
ghost use Rattle.program_log.specs.Logs.{HaveWorkers, IsHintedText};
ghost use Rattle.program_verdict.specs.Verdicts.{IsWhereWanted};

use c_check::Checked;
use dg_base::{Bytes, OutOfMemory};
use encode_match::Encoded;
use lemma_log::Log;
use program_log::hinted_text;
use std::alloc::Global;

/// The text of a good log, with hints, where it is wanted.
///
/// # Errors
/// Want of memory alone.
pub(crate) fn wanted_text(
    alloc: Global,
    checked: &Checked,
    encoded: &Encoded,
    log: &Log,
    wanted: bool,
) -> Result<Option<Bytes>, OutOfMemory>
    requires good { IsGood encoded.now.problem log.now.entries }
    requires workers { HaveWorkers log.now.entries }
    ensures { IfOk result (IsWhereWanted wanted (IsHintedText checked.now encoded.now log.now.entries)) }
{
    if !wanted {
        return Ok(None);
    }
    let text = hinted_text(alloc, checked, encoded, log)?;
    Ok(Some(text))
}
