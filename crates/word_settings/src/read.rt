// Settings from words.
ghost use Rattle.std.specs.Prelude.{◌≡◌, ◌⊎◌, ◌≤◌, ◌<◌, [], Ok, Err, IfOk, IfErr, IfSome, Some, None, length, map, option_map, slice_get, take};
ghost use Rattle.clap.specs.Words.{first_of, found_of, rows_of};
ghost use Rattle.word_settings.specs.Settings as spec;

use crate::command_line::matches_in;
use crate::fault::WordsFault;
use crate::settings::{
    FileName, Job, JobName, Settings, job_named, model_named, read_count, word_count,
};
use axiom_model::MemoryModel;
use clap::ArgMatches;
use clap::error::ErrorKind;
use dg_base::{OutOfMemory, Words};
use std::alloc::{AllocError, Global};

fn texts_of<'a>(alloc: Global, words: &'a Words) -> Result<Vec<&'a str>, AllocError>
    ensures { IfOk result (λ v. map (λ s. s.now) v.items ≡ words.entry.now) }
{
    let mut texts = Vec::new(alloc);
    for i in 0..words.len() {
        texts.push(words.word(i))?;
    }
    Ok(texts)
}

fn words_of(alloc: Global, texts: &[&str]) -> Result<Words, OutOfMemory>
    ensures { IfOk result (λ w. w ≡ map (λ s. s.now) texts.now) }
{
    let mut words = Words::new(alloc)?;
    for text in texts {
        words.push(text)?;
    }
    Ok(words)
}

// The first value of an argument.
fn text_in<'a>(matches: &ArgMatches<'a>, name: &str) -> Option<&'a str>
    ensures { option_map (λ s. s.now) result ≡ first_of name.now (rows_of (found_of matches.now)) }
{
    matches.get_str(name)
}

fn job_in(matches: &ArgMatches) -> Option<JobName>
    ensures { result ≡ spec.job_in (rows_of (found_of matches.now)) }
{
    match text_in(matches, "JOB") {
        Some(word) => job_named(word),
        None => None,
    }
}

fn model_in(matches: &ArgMatches) -> Option<MemoryModel>
    ensures { result ≡ spec.model_in (rows_of (found_of matches.now)) }
{
    match text_in(matches, "model") {
        Some(word) => model_named(word),
        None => None,
    }
}

fn number_of(matches: &ArgMatches, name: &str) -> u32
    ensures { result ≡ spec.number_of name.now (rows_of (found_of matches.now)) }
{
    matches.get_one::<u32>(name).unwrap_or(0)
}

fn kept(low: u32, high: u32, number: u32) -> u32
    requires { low ≤ high }
    ensures value { result ≡ spec.kept low high number }
    ensures within { (low ≤ result) × (result ≤ high) }
{
    if number < low {
        low
    } else if high < number {
        high
    } else {
        number
    }
}

fn number_in(matches: &ArgMatches, name: &str, low: u32, high: u32) -> u32
    requires { low ≤ high }
    ensures value { result ≡ spec.number_in name.now low high (rows_of (found_of matches.now)) }
    ensures within { (low ≤ result) × (result ≤ high) }
{
    kept(low, high, number_of(matches, name))
}

fn flag_in(matches: &ArgMatches, name: &str) -> bool
    ensures { result ≡ spec.flag_in name.now (rows_of (found_of matches.now)) }
{
    match text_in(matches, name) {
        Some(word) => word == "true",
        None => false,
    }
}

fn is_keeping(matches: &ArgMatches) -> bool
    ensures { result ≡ spec.is_keeping (rows_of (found_of matches.now)) }
{
    text_in(matches, "log").is_some() || text_in(matches, "witness").is_some()
}

// Whether an option is given that the job does not use.
fn is_unused(job: JobName, matches: &ArgMatches) -> bool
    ensures { result ≡ spec.is_unused job (rows_of (found_of matches.now)) }
{
    match job {
        JobName::Verify => flag_in(matches, "run"),
        JobName::Make => is_keeping(matches),
        _ => is_keeping(matches) || flag_in(matches, "run"),
    }
}

fn number_named(word: &str) -> u32
    ensures { result ≡ spec.number_named word.now }
{
    word.parse::<u32>().unwrap_or(0)
}

// Whether the word begins with no zero and no plus.
fn is_plain(word: &str) -> bool
    ensures { result ≡ spec.is_plain word.now }
{
    match word.as_bytes().first() {
        Some(byte) => 48 < *byte,
        None => false,
    }
}

fn made_number(word: &str) -> Option<u32>
    ensures value { result ≡ spec.made_number word.now }
    ensures within { IfSome result (λ n. (1 ≤ n) × (n ≤ 16)) }
{
    let number = number_named(word);
    if is_plain(word) && 0 < number && number < 17 {
        Some(number)
    } else {
        None
    }
}

// The file that an option names.
fn name_in(
    alloc: Global,
    matches: &ArgMatches,
    option: &str,
) -> Result<Option<FileName>, OutOfMemory>
    ensures { IfOk result (λ n. n ≡ first_of option.now (rows_of (found_of matches.now))) }
{
    match text_in(matches, option) {
        Some(text) => Ok(Some(FileName::of(alloc, text)?)),
        None => Ok(None),
    }
}

fn verify_job(alloc: Global, matches: &ArgMatches) -> Result<Job, OutOfMemory>
    ensures { IfOk result (λ j. spec.job_of JobName.Verify [] (rows_of (found_of matches.now)) ≡ Some j) }
{
    let log = name_in(alloc, matches, "log")?;
    let witness = name_in(alloc, matches, "witness")?;
    Ok(Job::Verify { log, witness })
}

fn make_job(word: &str, run: bool) -> Result<Job, WordsFault>
    ensures ok { IfOk result (λ j. option_map (λ n. Job.Make n run) (spec.made_number word.now) ≡ Some j) }
    ensures fault { IfErr result (λ e. (e ≡ WordsFault.Number) × (spec.made_number word.now ≡ None)) }
    ensures numbered { IfOk result spec.IsNumbered }
{
    match made_number(word) {
        Some(number) => Ok(Job::Make { number, run }),
        None => Err(WordsFault::Number),
    }
}

// The job with what it alone asks for.
fn job_of(
    alloc: Global,
    job: JobName,
    words: &[&str],
    matches: &ArgMatches,
) -> Result<Job, WordsFault>
    requires { length words.now ≡ spec.word_count job }
    ensures ok { IfOk result (λ j. spec.job_of job (map (λ s. s.now) words.now) (rows_of (found_of matches.now)) ≡ Some j) }
    ensures fault { IfErr result (λ e. (e ≡ WordsFault.OutOfMemory) ⊎ ((e ≡ WordsFault.Number) × (spec.job_of job (map (λ s. s.now) words.now) (rows_of (found_of matches.now)) ≡ None))) }
    ensures numbered { IfOk result spec.IsNumbered }
    ensures files { IfOk result (λ j. spec.file_count j ≡ spec.read_count job) }
{
    match job {
        JobName::Verify => Ok(verify_job(alloc, matches)?),
        JobName::Replay => Ok(Job::Replay),
        JobName::Check => Ok(Job::Check),
        JobName::Migrate => Ok(Job::Migrate {
            new: FileName::of(alloc, words[2])?,
        }),
        JobName::Make => make_job(words[0], flag_in(matches, "run")),
    }
}

fn settled(matches: &ArgMatches, job: Job, model: MemoryModel, files: Words) -> Settings
    ensures value { result ≡ spec.settled job model files (rows_of (found_of matches.now)) }
    ensures bound { (1 ≤ result.bound) × (result.bound ≤ 64) }
    ensures workers { (1 ≤ result.workers) × (result.workers ≤ 16) }
    ensures budget { (1 ≤ result.budget) × (result.budget ≤ 1000000) }
    ensures share { result.share ≤ 1048576 }
{
    Settings {
        job,
        model,
        bound: number_in(matches, "unroll", 1, 64),
        workers: number_in(matches, "workers", 1, 16),
        budget: number_in(matches, "budget", 1, 1000000),
        share: number_in(matches, "share", 0, 1048576),
        full: flag_in(matches, "full"),
        files,
    }
}

fn with_words(
    alloc: Global,
    name: JobName,
    model: MemoryModel,
    words: &[&str],
    matches: &ArgMatches,
) -> Result<Settings, WordsFault>
    ensures ok { IfOk result (λ s. spec.with_words name model (map (λ s. s.now) words.now) (rows_of (found_of matches.now)) ≡ Ok s) }
    ensures fault { IfErr result (λ e. (e ≡ WordsFault.OutOfMemory) ⊎ (spec.with_words name model (map (λ s. s.now) words.now) (rows_of (found_of matches.now)) ≡ Err e)) }
    ensures bound { IfOk result (λ s. (1 ≤ s.bound) × (s.bound ≤ 64)) }
    ensures workers { IfOk result (λ s. (1 ≤ s.workers) × (s.workers ≤ 16)) }
    ensures budget { IfOk result (λ s. (1 ≤ s.budget) × (s.budget ≤ 1000000)) }
    ensures share { IfOk result (λ s. s.share ≤ 1048576) }
    ensures number { IfOk result (λ s. spec.IsNumbered s.job) }
    ensures files { IfOk result (λ s. length s.files ≡ spec.file_count s.job) }
{
    if words.len() != word_count(name) {
        return Err(WordsFault::Files);
    }
    if is_unused(name, matches) {
        return Err(WordsFault::Unused);
    }
    let job = job_of(alloc, name, words, matches)?;
    let files = words_of(alloc, &words[..read_count(name)])?;
    Ok(settled(matches, job, model, files))
}

fn with_names(
    alloc: Global,
    name: JobName,
    model: MemoryModel,
    matches: &ArgMatches,
) -> Result<Settings, WordsFault>
    ensures ok { IfOk result (λ s. spec.with_words name model (spec.words_in (rows_of (found_of matches.now))) (rows_of (found_of matches.now)) ≡ Ok s) }
    ensures fault { IfErr result (λ e. (e ≡ WordsFault.OutOfMemory) ⊎ (spec.with_words name model (spec.words_in (rows_of (found_of matches.now))) (rows_of (found_of matches.now)) ≡ Err e)) }
    ensures bound { IfOk result (λ s. (1 ≤ s.bound) × (s.bound ≤ 64)) }
    ensures workers { IfOk result (λ s. (1 ≤ s.workers) × (s.workers ≤ 16)) }
    ensures budget { IfOk result (λ s. (1 ≤ s.budget) × (s.budget ≤ 1000000)) }
    ensures share { IfOk result (λ s. s.share ≤ 1048576) }
    ensures number { IfOk result (λ s. spec.IsNumbered s.job) }
    ensures files { IfOk result (λ s. length s.files ≡ spec.file_count s.job) }
{
    match matches.get_strs("WORDS") {
        Some(words) => with_words(alloc, name, model, words, matches),
        None => Err(WordsFault::Files),
    }
}

fn settings_in(alloc: Global, matches: &ArgMatches) -> Result<Settings, WordsFault>
    ensures ok { IfOk result (λ s. spec.settings_in (rows_of (found_of matches.now)) ≡ Ok s) }
    ensures fault { IfErr result (λ e. (e ≡ WordsFault.OutOfMemory) ⊎ (spec.settings_in (rows_of (found_of matches.now)) ≡ Err e)) }
    ensures bound { IfOk result (λ s. (1 ≤ s.bound) × (s.bound ≤ 64)) }
    ensures workers { IfOk result (λ s. (1 ≤ s.workers) × (s.workers ≤ 16)) }
    ensures budget { IfOk result (λ s. (1 ≤ s.budget) × (s.budget ≤ 1000000)) }
    ensures share { IfOk result (λ s. s.share ≤ 1048576) }
    ensures number { IfOk result (λ s. spec.IsNumbered s.job) }
    ensures files { IfOk result (λ s. length s.files ≡ spec.file_count s.job) }
{
    let Some(name) = job_in(matches) else {
        return Err(WordsFault::Clap(ErrorKind::InvalidValue));
    };
    let Some(model) = model_in(matches) else {
        return Err(WordsFault::Clap(ErrorKind::InvalidValue));
    };
    with_names(alloc, name, model, matches)
}

/// What the words ask for; the first word is the program's name. The fault is clap's first; then `InvalidValue` for a job or a
/// model of no known name; then `Files`, `Unused`, `Number`. Want of memory may stand in place of any answer.
pub fn settings_of(alloc: Global, words: &Words) -> Result<Settings, WordsFault>
    ensures ok { IfOk result (λ s. spec.settings_of words.now ≡ Ok s) }
    ensures fault { IfErr result (λ e. (e ≡ WordsFault.OutOfMemory) ⊎ (spec.settings_of words.now ≡ Err e)) }
    ensures bound { IfOk result (λ s. (1 ≤ s.bound) × (s.bound ≤ 64)) }
    ensures workers { IfOk result (λ s. (1 ≤ s.workers) × (s.workers ≤ 16)) }
    ensures budget { IfOk result (λ s. (1 ≤ s.budget) × (s.budget ≤ 1000000)) }
    ensures share { IfOk result (λ s. s.share ≤ 1048576) }
    ensures number { IfOk result (λ s. spec.IsNumbered s.job) }
    ensures files { IfOk result (λ s. length s.files ≡ spec.file_count s.job) }
{
    let texts = texts_of(alloc, words)?;
    let matches = matches_in(alloc, texts.as_slice())?;
    settings_in(alloc, &matches)
}
