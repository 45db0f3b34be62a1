// Settings, and the names that words have.
ghost use Rattle.std.specs.Prelude.{◌≡◌, IfOk};
ghost use Rattle.word_settings.specs.Settings as spec;

use axiom_model::MemoryModel;
use dg_base::{OutOfMemory, Words};
use std::alloc::Global;
use std::marker::Model;

/// The name of a file. Contracts see its bytes.
#[derive(Debug, Drop)]
pub struct FileName {
    text: String,
}

impl Model for FileName {
    ghost use Rattle.std.specs.Prelude.{List, ℕ, string_bytes};

    ghost Value = { List ℕ };

    ghost view = { λ n. string_bytes n.text };
}

impl FileName {
    /// The name with these characters.
    pub(crate) fn of(alloc: Global, text: &str) -> Result<FileName, OutOfMemory>
        ensures { IfOk result (λ n. n ≡ text.now) }
    {
        let text = String::from_str(alloc, text)?;
        Ok(FileName { text })
    }

    /// Its characters.
    pub fn as_str(&self) -> &str
        ensures { result.now ≡ self.now }
    {
        self.text.as_str()
    }
}

/// The name of a job, with nothing that it asks for.
#[derive(Debug, Clone, Copy, PartialEq, Eq, Drop)]
pub enum JobName {
    /// `verify`.
    Verify,
    /// `replay`.
    Replay,
    /// `check`.
    Check,
    /// `migrate`.
    Migrate,
    /// `make`.
    Make,
}

/// What is done, with what this job alone asks for.
#[derive(Debug, Drop)]
pub enum Job {
    /// `verify PROG`: whether some execution of the program fails.
    Verify {
        /// `--log`: the file to keep the log in, where one is named.
        log: Option<FileName>,
        /// `--witness`: the file to keep the witness in, where one is named.
        witness: Option<FileName>,
    },
    /// `replay PROG WITNESS`: whether the witness is such an execution.
    Replay,
    /// `check PROG LOG`: whether the log shows that there is none.
    Check,
    /// `migrate PROG OLD NEW`: the log again, with hints.
    Migrate {
        /// The file to keep the new log in.
        new: FileName,
    },
    /// `make NUMBER`: the made program of this number.
    Make {
        /// The number, from 1 to 16.
        number: u32,
        /// `--run`: whether the made program is verified.
        run: bool,
    },
}

/// What the words ask for.
#[derive(Debug, Drop)]
pub struct Settings {
    /// The job.
    pub job: Job,
    /// `--model`: the memory model; sequential consistency where none is given.
    pub model: MemoryModel,
    /// `--unroll`: how often a loop runs at most, from 1 to 64; 2 where nothing is said.
    pub bound: u32,
    /// `--workers`: how many search side by side, from 1 to 16; 4 where nothing is said.
    pub workers: u32,
    /// `--budget`: how many lemmas each may learn, from 1 to 1000000; 20000 where nothing is said.
    pub budget: u32,
    /// `--share`: how many words of lemmas a worker may share, from 0 to 1048576; 65536 where nothing is said.
    pub share: u32,
    /// `--full`: whether a loop that uses up its bound fails.
    pub full: bool,
    /// The names of the files that the job reads, in order.
    pub files: Words,
}

/// The job of this name.
pub(crate) fn job_named(word: &str) -> Option<JobName>
    ensures { result ≡ spec.job_named word.now }
{
    if word == "verify" {
        Some(JobName::Verify)
    } else if word == "replay" {
        Some(JobName::Replay)
    } else if word == "check" {
        Some(JobName::Check)
    } else if word == "migrate" {
        Some(JobName::Migrate)
    } else if word == "make" {
        Some(JobName::Make)
    } else {
        None
    }
}

/// How many words stand behind the job's name.
pub(crate) fn word_count(job: JobName) -> usize
    ensures { result ≡ spec.word_count job }
{
    match job {
        JobName::Verify | JobName::Make => 1,
        JobName::Replay | JobName::Check => 2,
        JobName::Migrate => 3,
    }
}

/// How many of these words name files that the job reads.
pub(crate) fn read_count(job: JobName) -> usize
    ensures { result ≡ spec.read_count job }
{
    match job {
        JobName::Make => 0,
        JobName::Verify => 1,
        JobName::Replay | JobName::Check | JobName::Migrate => 2,
    }
}

/// The model of this name.
pub(crate) fn model_named(word: &str) -> Option<MemoryModel>
    ensures { result ≡ spec.model_named word.now }
{
    if word == "sc" {
        Some(MemoryModel::Sc)
    } else if word == "tso" {
        Some(MemoryModel::Tso)
    } else if word == "pso" {
        Some(MemoryModel::Pso)
    } else {
        None
    }
}
