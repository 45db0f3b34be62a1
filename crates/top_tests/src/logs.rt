// Logs and witnesses that `verify` keeps, and what `check` and `migrate` say of logs.
use crate::calls::{Left, leaves};
use crate::programs::counting_by_six;
use crate::relaxed::{four_copies, store_buffering_answer};
use crate::replay::{changed, store_buffering};
use crate::verify::row_1;
use std::alloc::Global;
use std::test::Fail;
use std::thread::Threads;

// What is left by the words of this line, with store buffering as `p.c` and this log as `l`.
fn with_log<R: Threads + Sync + AllocGlobal>(rt: &R, line: &str, log: &str) -> Result<Left, Fail> {
    leaves(rt, &[("p.c", store_buffering()), ("l", log)], line, "new")
}

// What `check` leaves of a program and a log.
fn left_by_check<R: Threads + Sync + AllocGlobal>(
    rt: &R,
    program: &str,
    log: &str,
) -> Result<Left, Fail> {
    leaves(
        rt,
        &[("p.c", program), ("l", log)],
        "deagle check p.c l",
        "",
    )
}

// The log that is kept of store buffering under SC.
fn kept_log<R: Threads + Sync + AllocGlobal>(rt: &R) -> Result<String, Fail> {
    let files = [("p.c", store_buffering())];
    let told = leaves(rt, &files, "deagle verify p.c --log l", "l")?;
    Ok(told.kept)
}

// The text is `WORD n`, and the log's text has n entries: all of its lines but seven in front and the last.
fn tells_entries(printed: &str, word: &str, log: &str) -> Result<bool, Fail> {
    let Some(number) = printed.strip_prefix(word) else {
        return Ok(false);
    };
    let entries: usize = number.trim_end().parse()?;
    Ok(entries.checked_add(8) == Some(log.lines().count()))
}

// The line without its hints.
fn put_plain(out: &mut String, line: &str) -> Result<(), Fail> {
    let Some((front, behind)) = line.split_once(" u ") else {
        out.push_str(line)?;
        return Ok(());
    };
    out.push_str(front)?;
    out.push_str(" u")?;
    for word in behind.split(' ') {
        out.push_str(" ")?;
        out.push_str(word)?;
        if word == "0" {
            return Ok(());
        }
    }
    Ok(())
}

// The log in the format without hints.
fn plain(alloc: Global, log: &str) -> Result<String, Fail> {
    let mut out = String::new(alloc);
    for line in log.lines() {
        if line == "deagle-log 2" {
            out.push_str("deagle-log 1")?;
        } else {
            put_plain(&mut out, line)?;
        }
        out.push_str("\n")?;
    }
    Ok(out)
}

#[test]
fn a_kept_log_is_accepted(rt: HostRuntime) -> Result<(), Fail> {
    let files = [("p.c", store_buffering())];
    let Left {
        status,
        printed,
        kept,
    } = leaves(&rt, &files, "deagle verify p.c --log l", "l")?;
    assert_eq!(rt; status, 0);
    assert_eq!(rt; printed.as_str(), "SAFE\n");
    assert!(rt; kept.starts_with("deagle-log 2\nmodel sc\nunroll 2\nvars "));
    let told = left_by_check(&rt, store_buffering(), kept.as_str())?;
    assert_eq!(rt; told.status, 0);
    assert!(rt; tells_entries(told.printed.as_str(), "ACCEPTED ", kept.as_str())?);
    let without = plain(rt.alloc(), kept.as_str())?;
    assert!(rt; without.as_str() != kept.as_str());
    let told = left_by_check(&rt, store_buffering(), without.as_str())?;
    assert!(rt; tells_entries(told.printed.as_str(), "ACCEPTED ", kept.as_str())?);
    Ok(())
}

#[test]
fn a_log_of_another_model_is_told(rt: HostRuntime) -> Result<(), Fail> {
    let log = kept_log(&rt)?;
    for line in [
        "deagle check p.c l --model tso",
        "deagle migrate p.c l new --model tso",
    ] {
        let told = with_log(&rt, line, log.as_str())?;
        assert_eq!(rt; told.status, 1);
        let wanted = "REFUSED OtherProblem 2\nlog model sc\nhere model tso\n";
        assert_eq!(rt; told.printed.as_str(), wanted);
        assert!(rt; told.kept.is_empty());
    }
    Ok(())
}

// The log with the literals of its first cycle lemma taken out, and that lemma's ticket.
fn without_cycle(alloc: Global, log: &str) -> Result<(String, String), Fail> {
    let mut out = String::new(alloc);
    let mut ticket = String::new(alloc);
    if let Some((before, behind)) = log.split_once(" c ")
        && let Some((_, rest)) = behind.split_once("\n")
    {
        out.push_str(before)?;
        out.push_str(" c 0\n")?;
        out.push_str(rest)?;
        if let Some(last) = before.lines().last()
            && let Some((number, _)) = last.split_once(" ")
        {
            ticket.push_str(number)?;
        }
    }
    Ok((out, ticket))
}

#[test]
fn a_lemma_that_does_not_follow_is_told(rt: HostRuntime) -> Result<(), Fail> {
    let log = kept_log(&rt)?;
    let (other, ticket) = without_cycle(rt.alloc(), log.as_str())?;
    let told = left_by_check(&rt, store_buffering(), other.as_str())?;
    assert_eq!(rt; told.status, 1);
    let Some(number) = told.printed.strip_prefix("REFUSED NoCycle ") else {
        return Ok(assert!(rt; false));
    };
    assert_eq!(rt; number.trim_end(), ticket.as_str());
    Ok(())
}

#[test]
fn a_text_that_goes_wrong_is_told(rt: HostRuntime) -> Result<(), Fail> {
    let log = kept_log(&rt)?;
    let twice = changed(rt.alloc(), log.as_str(), "\n1 ", "\n0 ")?;
    let told = left_by_check(&rt, store_buffering(), twice.as_str())?;
    assert_eq!(rt; told.status, 4);
    assert_eq!(rt; told.printed.as_str(), "refused G1 LogText 9\n");
    let cut = changed(rt.alloc(), log.as_str(), "end\n", "")?;
    let told = left_by_check(&rt, store_buffering(), cut.as_str())?;
    assert_eq!(rt; told.status, 4);
    let Some(number) = told.printed.strip_prefix("refused G1 LogText ") else {
        return Ok(assert!(rt; false));
    };
    let line: usize = number.trim_end().parse()?;
    assert_eq!(rt; line, log.lines().count());
    Ok(())
}

// What `check` prints of the large program and a log of it.
fn checked_at_length<R: Threads + Sync + AllocGlobal>(rt: &R, log: &str) -> Result<String, Fail> {
    let files = [("p.c", counting_by_six()), ("l", log)];
    Ok(leaves(rt, &files, "deagle check p.c l --unroll 6", "")?.printed)
}

// Logs that are longer than a piece in which they are read, with hints and without; and what goes wrong at their end.
#[test]
fn long_logs_are_checked(rt: HostRuntime) -> Result<(), Fail> {
    let line = "deagle verify p.c --unroll 6 --workers 1 --log l";
    let Left { kept, .. } = leaves(&rt, &[("p.c", counting_by_six())], line, "l")?;
    let without = plain(rt.alloc(), kept.as_str())?;
    assert!(rt; 131072 < without.len());
    for log in [kept.as_str(), without.as_str()] {
        let told = checked_at_length(&rt, log)?;
        assert!(rt; tells_entries(told.as_str(), "ACCEPTED ", log)?);
        let cut = changed(rt.alloc(), log, "\nend\n", "\nend\n\n")?;
        let told = checked_at_length(&rt, cut.as_str())?;
        assert!(rt; told.starts_with("refused G1 LogText "));
    }
    Ok(())
}

#[test]
fn an_unfinished_log_is_kept(rt: HostRuntime) -> Result<(), Fail> {
    let line = "deagle verify p.c --log l --budget 1 --workers 2";
    let Left { status, kept, .. } = leaves(&rt, &[("p.c", four_copies())], line, "l")?;
    assert_eq!(rt; status, 2);
    let told = left_by_check(&rt, four_copies(), kept.as_str())?;
    assert_eq!(rt; told.status, 1);
    assert_eq!(rt; told.printed.as_str(), "REFUSED NoEmpty 2\n");
    Ok(())
}

#[test]
fn an_old_log_gets_hints(rt: HostRuntime) -> Result<(), Fail> {
    let log = kept_log(&rt)?;
    let old = plain(rt.alloc(), log.as_str())?;
    let told = with_log(&rt, "deagle migrate p.c l new", old.as_str())?;
    assert_eq!(rt; told.status, 0);
    assert!(rt; tells_entries(told.printed.as_str(), "MIGRATED ", log.as_str())?);
    assert!(rt; told.kept.starts_with("deagle-log 2\n"));
    let again = left_by_check(&rt, store_buffering(), told.kept.as_str())?;
    assert!(rt; tells_entries(again.printed.as_str(), "ACCEPTED ", log.as_str())?);
    let empty = with_log(&rt, "deagle migrate p.c l new", "")?;
    assert_eq!(rt; empty.status, 4);
    assert_eq!(rt; empty.printed.as_str(), "refused G1 LogText 1\n");
    assert!(rt; empty.kept.is_empty());
    Ok(())
}

#[test]
fn a_witness_is_kept(rt: HostRuntime) -> Result<(), Fail> {
    let files = [("p.c", store_buffering())];
    let line = "deagle verify p.c --model tso --witness w --log l";
    let told = leaves(&rt, &files, line, "w")?;
    assert_eq!(rt; told.status, 1);
    assert_eq!(rt; told.printed.as_str(), store_buffering_answer());
    let Some((_, witness)) = store_buffering_answer().split_once("\n") else {
        return Ok(assert!(rt; false));
    };
    assert_eq!(rt; told.kept.as_str(), witness);
    assert!(rt; leaves(&rt, &files, line, "l")?.kept.is_empty());
    let safe = leaves(&rt, &files, "deagle verify p.c --witness w", "w")?;
    assert_eq!(rt; safe.status, 0);
    assert!(rt; safe.kept.is_empty());
    Ok(())
}

// The program's refusal comes before all that is said of its log.
#[test]
fn a_refused_program_keeps_nothing(rt: HostRuntime) -> Result<(), Fail> {
    for line in [
        "deagle check p.c l",
        "deagle migrate p.c l new",
        "deagle verify p.c --log new",
    ] {
        let files = [("p.c", "int main(){x=1;}"), ("l", row_1())];
        let told = leaves(&rt, &files, line, "new")?;
        assert_eq!(rt; told.status, 4);
        assert_eq!(rt; told.printed.as_str(), "refused E6 Unknown 1:12\n");
        assert!(rt; told.kept.is_empty());
    }
    Ok(())
}
