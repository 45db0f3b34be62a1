// Desks whose calls fail, one that never fails, and files that are too long.
use crate::calls::{call, desk_with, leaves};
use crate::verify::{row_1, row_1_answer};
use dg_base::{HonestDesk, MemDesk, OpenGate, Words};
use dg_top::run_over_honest_desk;
use std::test::Fail;

// Words, the desk's call that fails, the status, and how many of the answer's bytes are printed: half of them where the print
// fails.
fn failing_calls() -> &'static [(&'static str, u32, u8)] {
    &[
        ("deagle verify row1.c", 1, 5),
        ("deagle verify row1.c", 2, 6),
        ("deagle replay row1.c w", 1, 5),
        ("deagle replay row1.c w", 2, 5),
        ("deagle replay row1.c w", 3, 6),
        ("deagle verify", 1, 6),
        ("deagle verify row2.c", 9, 5),
        ("deagle replay row1.c v", 9, 5),
    ]
}

// What the line prints where no call fails.
fn whole_answer(line: &str) -> &'static str {
    match line {
        "deagle verify row1.c" => row_1_answer(),
        "deagle verify" => "words Files\n",
        _ => "refused W1 WitnessText 1\n",
    }
}

#[test]
fn each_call_of_the_desk_fails_in_turn(rt: HostRuntime) -> Result<(), Fail> {
    for (line, failing, status) in failing_calls() {
        let mut desk = desk_with(rt.alloc(), "row1.c", row_1())?;
        desk.put("w", b"")?;
        desk.fail_at(*failing)?;
        assert_eq!(rt; call(&rt, &mut desk, line)?, *status);
        let whole = whole_answer(line).as_bytes();
        let printed = if *status == 6 {
            &whole[..whole.len() / 2]
        } else {
            &whole[..0]
        };
        assert!(rt; desk.printed() == printed);
    }
    Ok(())
}

// Words, the desk's call that fails, the status, how many bytes are printed, and whether the file `l` is kept.
fn failing_keeps() -> &'static [(&'static str, u32, u8, usize, bool)] {
    &[
        ("deagle verify same.c --log l", 1, 5, 0, false),
        ("deagle verify same.c --log l", 2, 6, 0, false),
        ("deagle verify same.c --log l", 3, 6, 2, true),
        ("deagle verify same.c --log l", 4, 0, 5, true),
        ("deagle verify row1.c --witness l", 1, 5, 0, false),
        ("deagle verify row1.c --witness l", 2, 6, 0, false),
        ("deagle verify row1.c --witness l", 4, 1, 143, true),
        ("deagle verify row1.c --log l", 2, 6, 71, false),
        ("deagle check same.c log", 1, 5, 0, false),
        ("deagle check same.c log", 2, 5, 0, false),
        ("deagle check same.c log", 3, 6, 5, false),
        ("deagle migrate same.c log l", 1, 5, 0, false),
        ("deagle migrate same.c log l", 2, 5, 0, false),
        ("deagle migrate same.c log l", 3, 6, 0, false),
        ("deagle migrate same.c log l", 4, 6, 5, true),
        ("deagle make 1", 1, 6, 158, false),
        ("deagle make 1 --run", 1, 6, 11, false),
    ]
}

#[test]
fn each_keep_fails_in_turn(rt: HostRuntime) -> Result<(), Fail> {
    let alloc = rt.alloc();
    let files = [("same.c", crate::verify::same())];
    let log = leaves(&rt, &files, "deagle verify same.c --log l", "l")?.kept;
    for (line, failing, status, printed, kept) in failing_keeps() {
        let mut desk = desk_with(alloc, "same.c", crate::verify::same())?;
        desk.put("row1.c", row_1().as_bytes())?;
        desk.put("log", log.as_bytes())?;
        desk.fail_at(*failing)?;
        assert_eq!(rt; call(&rt, &mut desk, line)?, *status);
        assert_eq!(rt; desk.printed().len(), *printed);
        assert_eq!(rt; desk.file("l").is_some(), *kept);
    }
    Ok(())
}

// What the honest desk prints for this line, with the status.
fn honest() -> &'static [(&'static str, u8, &'static str)] {
    &[
        ("deagle verify same.c", 0, "SAFE\n"),
        ("deagle verify nowhere.c", 4, "refused E4 NoMain\n"),
        (
            "deagle replay same.c nowhere",
            4,
            "refused W1 WitnessText 1\n",
        ),
        ("deagle", 3, "words MissingRequiredArgument\n"),
    ]
}

#[test]
fn an_honest_desk_always_answers(rt: HostRuntime) -> Result<(), Fail> {
    for (line, status, printed) in honest() {
        let alloc = rt.alloc();
        let mut desk = HonestDesk::new(alloc)?;
        desk.put("same.c", crate::verify::same().as_bytes())?;
        let mut words = Words::new(alloc)?;
        for word in line.split(' ') {
            words.push(word)?;
        }
        assert_eq!(rt;
            run_over_honest_desk(&rt, alloc, &words, &mut desk, &OpenGate),
            *status
        );
        assert!(rt; desk.printed() == printed.as_bytes());
    }
    Ok(())
}

#[test]
fn a_long_file_is_refused(rt: HostRuntime) -> Result<(), Fail> {
    let length: usize = "67108865".parse()?;
    let mut long = Vec::new(rt.alloc());
    long.resize(length, 32u8)?;
    let mut desk = MemDesk::new(rt.alloc())?;
    desk.put("long.c", long.as_slice())?;
    assert_eq!(rt; call(&rt, &mut desk, "deagle verify long.c")?, 4);
    assert!(rt; desk.printed() == b"refused Long long.c\n".as_slice());
    Ok(())
}
