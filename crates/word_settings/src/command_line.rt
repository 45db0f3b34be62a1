// The command, and what clap makes of words.
ghost use Rattle.std.specs.Prelude.{◌≡◌, ◌⊎◌, IfOk, IfErr, [], ◌∷◌, false, map};
ghost use Rattle.clap.specs.Words.{app_of, found_of, rows_of, rule_of, with_rule};
ghost use Rattle.word_settings.specs.CommandLine.{bare_app, deagle, faults, flag_rule, found, job_rule, name_rule, number_rule, option_rule, words_rule};

use crate::fault::WordsFault;
use clap::builder::ValueParser;
use clap::error::ErrorKind;
use clap::{Arg, ArgAction, ArgMatches, Command};
use std::alloc::{AllocError, Global};

fn job<'a>(alloc: Global) -> Arg<'a>
    ensures rule { rule_of result ≡ job_rule }
    ensures own { result.global ≡ false }
{
    Arg::new(alloc, "JOB").required(true).action(ArgAction::Set)
}

fn words<'a>(alloc: Global) -> Arg<'a>
    ensures rule { rule_of result ≡ words_rule }
    ensures own { result.global ≡ false }
{
    Arg::new(alloc, "WORDS")
        .num_args(1..)
        .action(ArgAction::Append)
}

fn option<'a>(alloc: Global, name: &'a str, value: &'a str) -> Arg<'a>
    ensures rule { rule_of result ≡ option_rule name.entry.now value.entry.now }
    ensures own { result.global ≡ false }
{
    Arg::new(alloc, name)
        .long(name)
        .action(ArgAction::Set)
        .default_value(value)
}

fn number<'a>(alloc: Global, name: &'a str, value: &'a str, low: u32, high: u32) -> Arg<'a>
    ensures rule { rule_of result ≡ number_rule name.entry.now value.entry.now low high }
    ensures own { result.global ≡ false }
{
    option(alloc, name, value).value_parser(ValueParser::Signed(i64::from(low), i64::from(high)))
}

fn name<'a>(alloc: Global, id: &'a str) -> Arg<'a>
    ensures rule { rule_of result ≡ name_rule id.entry.now }
    ensures own { result.global ≡ false }
{
    Arg::new(alloc, id).long(id).action(ArgAction::Set)
}

fn flag<'a>(alloc: Global, name: &'a str) -> Arg<'a>
    ensures rule { rule_of result ≡ flag_rule name.entry.now }
    ensures own { result.global ≡ false }
{
    Arg::new(alloc, name).long(name).action(ArgAction::SetTrue)
}

fn bare<'a>(alloc: Global) -> Command<'a>
    ensures { app_of result ≡ bare_app }
{
    Command::new(alloc, "deagle").disable_help_flag(true)
}

fn with<'a>(command: Command<'a>, arg: Arg<'a>) -> Result<Command<'a>, AllocError>
    requires { arg.global ≡ false }
    ensures { IfOk result (λ c. app_of c ≡ with_rule (app_of command.entry) (rule_of arg.entry)) }
{
    command.arg(arg)
}

fn command<'a>(alloc: Global) -> Result<Command<'a>, AllocError>
    ensures { IfOk result (λ c. app_of c ≡ deagle) }
{
    let one = with(bare(alloc), job(alloc))?;
    let two = with(one, words(alloc))?;
    let three = with(two, option(alloc, "model", "sc"))?;
    let four = with(three, number(alloc, "unroll", "2", 1, 64))?;
    let five = with(four, number(alloc, "workers", "4", 1, 16))?;
    let six = with(five, number(alloc, "budget", "20000", 1, 1000000))?;
    let seven = with(six, number(alloc, "share", "65536", 0, 1048576))?;
    let eight = with(seven, flag(alloc, "full"))?;
    let nine = with(eight, name(alloc, "log"))?;
    let ten = with(nine, name(alloc, "witness"))?;
    with(ten, flag(alloc, "run"))
}

fn fault_of(kind: ErrorKind) -> WordsFault
    ensures memory { kind ≡ ErrorKind.OutOfMemory → result ≡ WordsFault.OutOfMemory }
    ensures own { (result ≡ WordsFault.OutOfMemory) ⊎ (result ≡ WordsFault.Clap kind) }
{
    match kind {
        ErrorKind::OutOfMemory => WordsFault::OutOfMemory,
        _ => WordsFault::Clap(kind),
    }
}

/// What clap finds in the words, or its fault.
pub(crate) fn matches_in<'a>(
    alloc: Global,
    words: &'a [&'a str],
) -> Result<ArgMatches<'a>, WordsFault>
    ensures taken { IfOk result (λ m. faults (map (λ s. s.now) words.entry.now) ≡ []) }
    ensures found { IfOk result (λ m. rows_of (found_of m) ≡ found (map (λ s. s.now) words.entry.now)) }
    ensures fault { IfErr result (λ e. (e ≡ WordsFault.OutOfMemory) ⊎ ((k : ErrorKind) × (e ≡ WordsFault.Clap k) × (faults (map (λ s. s.now) words.entry.now) ≡ k ∷ []))) }
{
    match command(alloc)?.try_get_matches_from(words) {
        Ok(matches) => Ok(matches),
        Err(error) => Err(fault_of(error.kind())),
    }
}
