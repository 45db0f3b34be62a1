// The job `migrate`: a log again, with hints.
ghost use Rattle.std.specs.Prelude.{◌≡◌, ◌≤◌, ◌∷◌, [], IfOk};
ghost use Rattle.c_check.specs.WellFormed.{IsChecked};
ghost use Rattle.word_settings.specs.declared.settings.Job.TheVariants.{Migrate};
ghost use Rattle.dg_top.specs.Answers.{IsAnswer, IsMigrated};
ghost use Rattle.dg_top.specs.Replies.{IsOneOf};

use crate::log_reply::{migrated, of_log};
use crate::reply::{Reply, keep_in, refuse};
use axiom_model::MemoryModel;
use c_check::Checked;
use c_program::read_program;
use dg_base::OutOfMemory;
use program_log::{Migration, migrate_text};
use std::alloc::Global;
use word_settings::{FileName, Settings};

// The log kept anew in this file, where it is accepted.
fn migrate_log(
    alloc: Global,
    checked: &Checked,
    model: MemoryModel,
    old: &[u8],
    new: &FileName,
) -> Result<Reply, OutOfMemory>
    requires { IsChecked checked.now }
    ensures { IfOk result (IsOneOf (IsMigrated model checked.now old.now new.now)) }
{
    match migrate_text(alloc, checked, model, old)? {
        Migration::Migrated(entries, text) => {
            let kept = keep_in(alloc, new, text)?;
            migrated(alloc, entries, kept)
        }
        Migration::Refused(answer) => of_log(alloc, &answer),
    }
}

/// The first refusal of the text, or what the log is for its program; where it is accepted, the new one is kept.
pub fn migrate(
    alloc: Global,
    settings: &Settings,
    new: &FileName,
    text: &[u8],
    old: &[u8],
) -> Result<Reply, OutOfMemory>
    requires job { settings.now.job ≡ Migrate new.now }
    requires bound { (1 ≤ settings.now.bound) × (settings.now.bound ≤ 64) }
    ensures { IfOk result (IsOneOf (IsAnswer settings.now (text.now ∷ old.now ∷ []))) }
{
    match read_program(alloc, text, settings.bound, settings.full) {
        Ok(checked) => migrate_log(alloc, &checked, settings.model, old, new),
        Err(refusal) => refuse(alloc, &refusal),
    }
}
