// Words of command lines, and what they ask for.
use crate::{FileName, Job, Settings, WordsFault, settings_of};
use axiom_model::MemoryModel;
use clap::error::ErrorKind;
use dg_base::Words;
use std::alloc::Global;
use std::test::Fail;

// What `deagle` and these words ask for, the words divided by blanks.
fn asked(alloc: Global, line: &str) -> Result<Settings, WordsFault> {
    let mut words = Words::new(alloc)?;
    words.push("deagle")?;
    for word in line.split(' ') {
        words.push(word)?;
    }
    settings_of(alloc, &words)
}

// The fault's name; no text where the words ask for something.
fn fault_in(alloc: Global, line: &str) -> &'static str {
    match asked(alloc, line) {
        Ok(_) => "",
        Err(fault) => fault.name(),
    }
}

fn is_name(name: &Option<FileName>, text: &str) -> bool {
    match name {
        Some(name) => name.as_str() == text,
        None => false,
    }
}

// Whether the job keeps a log and a witness under these names.
fn keeps(job: &Job, first: &str, second: &str) -> bool {
    match job {
        Job::Verify { log, witness } => is_name(log, first) && is_name(witness, second),
        _ => false,
    }
}

// Whether the job keeps a new log under this name.
fn keeps_new(job: &Job, text: &str) -> bool {
    match job {
        Job::Migrate { new } => new.as_str() == text,
        _ => false,
    }
}

#[test]
fn defaults(rt: HostRuntime) -> Result<(), Fail> {
    let settings = asked(rt.alloc(), "verify a.c")?;
    assert!(rt;
        matches!(
            settings.job,
            Job::Verify {
                log: None,
                witness: None
            }
        )
    );
    assert_eq!(rt; settings.model, MemoryModel::Sc);
    assert_eq!(rt; settings.bound, 2);
    assert_eq!(rt; settings.workers, 4);
    assert_eq!(rt; settings.budget, 20000);
    assert_eq!(rt; settings.share, 65536);
    assert!(rt; !settings.full);
    assert_eq!(rt; settings.files.len(), 1);
    assert_eq!(rt; settings.files.word(0), "a.c");
    Ok(())
}

#[test]
fn each_option(rt: HostRuntime) -> Result<(), Fail> {
    let settings = asked(
        rt.alloc(),
        "--model=tso --unroll 64 replay --workers=16 a.c --full b.txt --budget 1000000 --share 0",
    )?;
    assert!(rt; matches!(settings.job, Job::Replay));
    assert_eq!(rt; settings.model, MemoryModel::Tso);
    assert_eq!(rt; settings.bound, 64);
    assert_eq!(rt; settings.workers, 16);
    assert_eq!(rt; settings.budget, 1000000);
    assert_eq!(rt; settings.share, 0);
    assert!(rt; settings.full);
    assert_eq!(rt; settings.files.len(), 2);
    assert_eq!(rt; settings.files.word(0), "a.c");
    assert_eq!(rt; settings.files.word(1), "b.txt");
    Ok(())
}

#[test]
fn words_behind_two_hyphens_are_no_options(rt: HostRuntime) -> Result<(), Fail> {
    let settings = asked(rt.alloc(), "verify --model pso -- --full")?;
    assert_eq!(rt; settings.model, MemoryModel::Pso);
    assert!(rt; !settings.full);
    assert_eq!(rt; settings.files.len(), 1);
    assert_eq!(rt; settings.files.word(0), "--full");
    Ok(())
}

#[test]
fn files_to_keep(rt: HostRuntime) -> Result<(), Fail> {
    let settings = asked(rt.alloc(), "verify a.c --log l --witness=w")?;
    assert_eq!(rt; settings.files.len(), 1);
    assert!(rt; keeps(&settings.job, "l", "w"));
    Ok(())
}

#[test]
fn logs(rt: HostRuntime) -> Result<(), Fail> {
    let check = asked(rt.alloc(), "check a.c b.txt")?;
    assert!(rt; matches!(check.job, Job::Check));
    assert_eq!(rt; check.files.len(), 2);
    assert_eq!(rt; check.files.word(1), "b.txt");
    let migrate = asked(rt.alloc(), "migrate a.c old new")?;
    assert_eq!(rt; migrate.files.len(), 2);
    assert_eq!(rt; migrate.files.word(0), "a.c");
    assert_eq!(rt; migrate.files.word(1), "old");
    assert!(rt; keeps_new(&migrate.job, "new"));
    Ok(())
}

#[test]
fn made_programs(rt: HostRuntime) -> Result<(), Fail> {
    let one = asked(rt.alloc(), "make 1")?;
    assert!(rt;
        matches!(
            one.job,
            Job::Make {
                number: 1,
                run: false
            }
        )
    );
    assert_eq!(rt; one.files.len(), 0);
    let last = asked(rt.alloc(), "make --run 16 --workers 8")?;
    assert!(rt;
        matches!(
            last.job,
            Job::Make {
                number: 16,
                run: true
            }
        )
    );
    assert_eq!(rt; last.workers, 8);
    Ok(())
}

#[test]
fn no_words(rt: HostRuntime) -> Result<(), Fail> {
    let words = Words::new(rt.alloc())?;
    let missing = WordsFault::Clap(ErrorKind::MissingRequiredArgument);
    match settings_of(rt.alloc(), &words) {
        Ok(_) => assert!(rt; false),
        Err(fault) => assert_eq!(rt; fault, missing),
    }
    Ok(())
}

#[test]
fn faults(rt: HostRuntime) -> Result<(), Fail> {
    let lines = [
        ("--full", "MissingRequiredArgument"),
        ("prove a.c", "InvalidValue"),
        ("verify", "Files"),
        ("verify a.c b.c", "Files"),
        ("replay a.c", "Files"),
        ("replay a.c b c", "Files"),
        ("verify a.c --model=x86", "InvalidValue"),
        ("verify a.c --model SC", "InvalidValue"),
        ("verify a.c --model", "InvalidValue"),
        ("verify a.c --unroll 0", "ValueValidation"),
        ("verify a.c --unroll 65", "ValueValidation"),
        ("verify a.c --unroll two", "ValueValidation"),
        ("verify a.c --workers 17", "ValueValidation"),
        ("verify a.c --budget 0", "ValueValidation"),
        ("verify a.c --share 1048577", "ValueValidation"),
        ("verify a.c --full=yes", "TooManyValues"),
        ("verify a.c --full --full", "ArgumentConflict"),
        ("verify a.c --unroll 3 --unroll 3", "ArgumentConflict"),
        ("verify a.c --fast", "UnknownArgument"),
        ("verify a.c -f", "UnknownArgument"),
        ("--help", "UnknownArgument"),
        ("verify a.c b.c --fast", "UnknownArgument"),
        ("verify a.c --log", "InvalidValue"),
        ("verify a.c --log l --log l", "ArgumentConflict"),
        ("check a.c", "Files"),
        ("migrate a.c b", "Files"),
        ("migrate a.c b c d", "Files"),
        ("make", "Files"),
        ("make 1 2", "Files"),
        ("make 17 --log l --unroll 65", "ValueValidation"),
        ("check a.c --run", "Files"),
        ("check a.c b --run", "Unused"),
        ("check a.c b --log l", "Unused"),
        ("replay a.c b --witness w", "Unused"),
        ("migrate a.c b c --log l", "Unused"),
        ("verify a.c --run", "Unused"),
        ("make 1 --log l", "Unused"),
        ("make 17 --witness w", "Unused"),
        ("make 17", "Number"),
        ("make 0", "Number"),
        ("make 01", "Number"),
        ("make +2", "Number"),
        ("make x", "Number"),
        ("make 4294967297", "Number"),
    ];
    for line in lines {
        assert_eq!(rt; fault_in(rt.alloc(), line.0), line.1);
    }
    Ok(())
}
