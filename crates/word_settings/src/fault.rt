// Why words are refused.
ghost use Rattle.std.specs.Prelude.{◌≡◌};
ghost use Rattle.word_settings.specs.Settings as spec;

use clap::error::ErrorKind;
use dg_base::OutOfMemory;
use std::alloc::AllocError;

/// Why the words ask for nothing.
#[derive(Debug, Clone, Copy, PartialEq, Eq, Drop)]
pub enum WordsFault {
    /// Not the words of the command, by clap's kind of fault.
    Clap(ErrorKind),
    /// Not as many words behind the job as it has.
    Files,
    /// `--log` or `--witness` with another job than verify, or `--run` with another than make.
    Unused,
    /// The word of make is no number from 1 to 16, or it begins with a zero or a plus.
    Number,
    /// Want of memory; nothing is said of the words.
    OutOfMemory,
}

impl From<AllocError> for WordsFault {
    ghost use Rattle.std.specs.Prelude.{◌≡◌};
    ghost use Rattle.word_settings.specs.declared.fault.WordsFault.TheVariants.{OutOfMemory};

    ghost from_gives = { λ _ e. e ≡ OutOfMemory };

    fn from(_: AllocError) -> Self {
        WordsFault::OutOfMemory
    }
}

impl From<OutOfMemory> for WordsFault {
    ghost use Rattle.std.specs.Prelude.{◌≡◌};
    ghost use Rattle.word_settings.specs.declared.fault.WordsFault.TheVariants as fault;

    ghost from_gives = { λ _ e. e ≡ fault.OutOfMemory };

    fn from(_: OutOfMemory) -> Self {
        WordsFault::OutOfMemory
    }
}

fn kind_name(kind: ErrorKind) -> &'static str
    ensures { result.now ≡ spec.kind_name kind }
{
    match kind {
        ErrorKind::InvalidValue => "InvalidValue",
        ErrorKind::UnknownArgument => "UnknownArgument",
        ErrorKind::InvalidSubcommand => "InvalidSubcommand",
        ErrorKind::NoEquals => "NoEquals",
        ErrorKind::ValueValidation => "ValueValidation",
        ErrorKind::TooManyValues => "TooManyValues",
        ErrorKind::TooFewValues => "TooFewValues",
        ErrorKind::WrongNumberOfValues => "WrongNumberOfValues",
        ErrorKind::ArgumentConflict => "ArgumentConflict",
        ErrorKind::MissingRequiredArgument => "MissingRequiredArgument",
        ErrorKind::MissingSubcommand => "MissingSubcommand",
        ErrorKind::DisplayHelp => "DisplayHelp",
        ErrorKind::DisplayHelpOnMissingArgumentOrSubcommand => {
            "DisplayHelpOnMissingArgumentOrSubcommand"
        }
        ErrorKind::DisplayVersion => "DisplayVersion",
        ErrorKind::Io => "Io",
        ErrorKind::Format => "Format",
        ErrorKind::OutOfMemory => "OutOfMemory",
    }
}

impl WordsFault {
    /// The fault's name, as it is printed: clap's name of its kind, or its own.
    pub fn name(self) -> &'static str
        ensures { result.now ≡ spec.fault_name self }
    {
        match self {
            WordsFault::Clap(kind) => kind_name(kind),
            WordsFault::Files => "Files",
            WordsFault::Unused => "Unused",
            WordsFault::Number => "Number",
            WordsFault::OutOfMemory => "OutOfMemory",
        }
    }
}
