// Programs beside their tables.
use crate::programs::{Row, sections, store_buffering};
use crate::told::{Listing, list_events};
use std::alloc::Global;
use std::process::Abort;
use std::test::Fail;

// The events of a row's program are those of its table, and each has a value.
fn check_row(rt: &impl Abort, alloc: Global, row: &Row) -> Result<Listing, Fail> {
    let (text, wanted) = *row;
    let found = list_events(alloc, text)?;
    assert_eq!(rt; found.events.as_str(), wanted, "at {text}");
    assert_eq!(rt; found.values, wanted.lines().count(), "at {text}");
    Ok(found)
}

#[test]
fn threads_store_and_read(rt: HostRuntime) -> Result<(), Fail> {
    check_row(&rt, rt.alloc(), &store_buffering())?;
    Ok(())
}

#[test]
fn a_section_is_one_block(rt: HostRuntime) -> Result<(), Fail> {
    for row in sections() {
        let found = check_row(&rt, rt.alloc(), row)?;
        assert!(rt; found.stops && found.fails);
    }
    Ok(())
}
