// Words of the command line: which are those of a job, and what its options are.
use crate::calls::{call, desk_with, text};
use crate::verify::{row_1, same};
use std::test::Fail;

// Lines that ask for nothing, and why.
fn bad_lines() -> &'static [(&'static str, &'static str)] {
    &[
        ("deagle", "MissingRequiredArgument"),
        ("deagle prove row1.c", "InvalidValue"),
        ("deagle verify", "Files"),
        ("deagle check row1.c", "Files"),
        ("deagle migrate row1.c l", "Files"),
        ("deagle verify row1.c row1.c", "Files"),
        ("deagle verify --model sc", "Files"),
        ("deagle replay row1.c", "Files"),
        ("deagle replay row1.c --full", "Files"),
        ("deagle verify row1.c --full 1", "Files"),
        ("deagle verify row1.c --model", "InvalidValue"),
        ("deagle verify row1.c --model arm", "InvalidValue"),
        ("deagle verify row1.c --model --full", "InvalidValue"),
        ("deagle verify row1.c --unroll --full", "InvalidValue"),
        ("deagle verify row1.c --full --unroll", "InvalidValue"),
        ("deagle verify row1.c --budget", "InvalidValue"),
        ("deagle verify row1.c --unroll 0", "ValueValidation"),
        ("deagle verify row1.c --unroll 65", "ValueValidation"),
        ("deagle verify row1.c --workers 0", "ValueValidation"),
        ("deagle verify row1.c --workers 17", "ValueValidation"),
        ("deagle verify row1.c --budget 0", "ValueValidation"),
        ("deagle verify row1.c --budget 1000001", "ValueValidation"),
        ("deagle verify row1.c --share 1048577", "ValueValidation"),
        (
            "deagle verify row1.c --model sc --model sc",
            "ArgumentConflict",
        ),
        ("deagle verify row1.c --full --full", "ArgumentConflict"),
        (
            "deagle verify row1.c --full --model sc --full",
            "ArgumentConflict",
        ),
        (
            "deagle verify row1.c --workers 2 --workers 2",
            "ArgumentConflict",
        ),
        ("deagle verify row1.c --fast", "UnknownArgument"),
        ("deagle make 1 --log l", "Unused"),
        ("deagle check row1.c l --witness w", "Unused"),
        ("deagle verify row1.c --run", "Unused"),
        ("deagle make 17", "Number"),
        ("deagle make 01", "Number"),
    ]
}

#[test]
fn rows_on_words(rt: HostRuntime) -> Result<(), Fail> {
    for (line, why) in bad_lines() {
        let mut desk = desk_with(rt.alloc(), "row1.c", row_1())?;
        assert_eq!(rt; call(&rt, &mut desk, line)?, 3);
        assert!(rt; desk.printed() == text(rt.alloc(), &["words ", why, "\n"])?.as_slice());
    }
    Ok(())
}

// Lines with options, all of a program that is safe.
fn with_options() -> &'static [&'static str] {
    &[
        "deagle verify same.c --model sc",
        "deagle verify same.c --model tso",
        "deagle verify same.c --unroll 64 --model pso",
        "deagle verify same.c --model sc --unroll 1",
        "deagle verify same.c --full",
        "deagle verify same.c --full --model sc",
        "deagle verify same.c --unroll 1 --full",
        "deagle verify same.c --unroll 1 --full --model tso",
        "deagle verify same.c --workers 1 --budget 1000000 --share 1048576",
        "deagle verify same.c --share 0 --workers 16 --full",
        "deagle --full --model=tso verify --unroll 02 -- same.c",
    ]
}

#[test]
fn rows_on_options(rt: HostRuntime) -> Result<(), Fail> {
    for line in with_options() {
        let mut desk = desk_with(rt.alloc(), "same.c", same())?;
        assert_eq!(rt; call(&rt, &mut desk, line)?, 0);
        assert!(rt; desk.printed() == b"SAFE\n".as_slice());
    }
    Ok(())
}
