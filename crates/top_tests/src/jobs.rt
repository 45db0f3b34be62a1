// Made programs, printed and verified.
use crate::calls::{Left, leaves};
use std::test::Fail;

// Words, the status, how many bytes are printed, and what stands at their end.
fn made() -> &'static [(&'static str, usize, &'static str)] {
    &[
        ("deagle make 1", 316, "  return 0;\n}\n"),
        ("deagle make 16", 4522, "  return 0;\n}\n"),
        ("deagle make 4 --model tso --unroll 1", 1129, "}\n"),
    ]
}

#[test]
fn rows_on_made_programs(rt: HostRuntime) -> Result<(), Fail> {
    for (line, bytes, end) in made() {
        let told = leaves(&rt, &[], line, "")?;
        assert_eq!(rt; told.status, 0);
        assert_eq!(rt; told.printed.len(), *bytes);
        assert!(rt; told.printed.ends_with(end));
    }
    Ok(())
}

// Words, the status, and what is printed.
fn verified() -> &'static [(&'static str, u8, &'static str)] {
    &[
        ("deagle make 4 --run", 0, "made 4 bytes 1129 SAFE\n"),
        (
            "deagle make 8 --run --workers 8",
            0,
            "made 8 bytes 2226 SAFE\n",
        ),
        (
            "deagle make 1 --run --model tso",
            1,
            "made 1 bytes 316 UNSAFE\n",
        ),
        (
            "deagle make 4 --run --budget 1 --workers 2",
            2,
            "made 4 bytes 1129 UNKNOWN\n",
        ),
        ("deagle make 17 --run", 3, "words Number\n"),
    ]
}

#[test]
fn rows_on_made_verdicts(rt: HostRuntime) -> Result<(), Fail> {
    for (line, status, wanted) in verified() {
        let told = leaves(&rt, &[], line, "")?;
        assert_eq!(rt; told.status, *status);
        assert_eq!(rt; told.printed.as_str(), *wanted);
    }
    Ok(())
}

// What is printed is a program of the language.
#[test]
fn a_made_program_is_read(rt: HostRuntime) -> Result<(), Fail> {
    let Left { printed, .. } = leaves(&rt, &[], "deagle make 2", "")?;
    let told = leaves(
        &rt,
        &[("made.c", printed.as_str())],
        "deagle verify made.c",
        "",
    )?;
    assert_eq!(rt; told.printed.as_str(), "SAFE\n");
    Ok(())
}
