// The job `check`: whether a log shows that no execution of a program fails.
ghost use Rattle.std.specs.Prelude.{◌≡◌, ◌≤◌, ◌∷◌, [], IfOk};
ghost use Rattle.word_settings.specs.declared.settings.Job.TheVariants.{Check};
ghost use Rattle.dg_top.specs.Answers.{IsAnswer};
ghost use Rattle.dg_top.specs.Replies.{IsOneOf};

use crate::log_reply::of_log;
use crate::reply::{Reply, refuse};
use c_program::read_program;
use dg_base::OutOfMemory;
use program_log::check_text;
use std::alloc::Global;
use word_settings::Settings;

/// The first refusal of the text, or what the log is for its program.
pub fn check(
    alloc: Global,
    settings: &Settings,
    text: &[u8],
    log: &[u8],
) -> Result<Reply, OutOfMemory>
    requires job { settings.now.job ≡ Check }
    requires bound { (1 ≤ settings.now.bound) × (settings.now.bound ≤ 64) }
    ensures { IfOk result (IsOneOf (IsAnswer settings.now (text.now ∷ log.now ∷ []))) }
{
    match read_program(alloc, text, settings.bound, settings.full) {
        Ok(checked) => {
            let answer = check_text(alloc, &checked, settings.model, log)?;
            of_log(alloc, &answer)
        }
        Err(refusal) => refuse(alloc, &refusal),
    }
}
