// The desks, the words and the steps, once each; the operators at their edges.
ghost use Rattle.std.specs.Prelude.{◌≡◌, ◌<◌};

use crate::host_desk::read_rest;
use crate::{Bytes, Desk, HonestDesk, HostDesk, MemDesk, Op, Steps, Trouble, Words, apply};
use std::alloc::{AllocError, Global};
use std::io;
use std::io::{Error, ErrorKind, Read};
use std::marker::Brand;
use std::sync::ledger::{Blank, Ledger};
use std::test::Fail;

#[test]
fn words_keep_their_order(rt: HostRuntime) -> Result<(), Fail> {
    let mut words = Words::new(rt.alloc())?;
    assert!(rt; words.is_empty());
    for word in ["deagle", "verify", "", "zwölf.c"] {
        words.push(word)?;
    }
    assert_eq!(rt; words.len(), 4);
    assert_eq!(rt; words.word(1), "verify");
    assert_eq!(rt; words.word(3), "zwölf.c");
    Ok(())
}

// Fetches from the desk: the bytes as they came, or the trouble.
fn fetched<D: Desk>(alloc: Global, desk: &mut D, name: &str) -> Result<Bytes, Trouble> {
    let mut bytes = Bytes::new(alloc);
    desk.fetch(name, &mut bytes)?;
    Ok(bytes)
}

#[test]
fn a_desk_in_memory_holds_files(rt: HostRuntime) -> Result<(), Fail> {
    let mut desk = MemDesk::new(rt.alloc())?;
    desk.put("a", b"one".as_slice())?;
    desk.put("a", b"two".as_slice())?;
    let two = fetched(rt.alloc(), &mut desk, "a")?;
    assert_eq!(rt; two.as_slice(), b"two".as_slice());
    assert_eq!(rt;
        desk.fetch("b", &mut Bytes::new(rt.alloc())),
        Err(Trouble::Failed)
    );
    Ok(())
}

#[test]
fn a_desk_in_memory_fails_by_its_list(rt: HostRuntime) -> Result<(), Fail> {
    let mut desk = MemDesk::new(rt.alloc())?;
    desk.fail_at(1)?;
    assert_eq!(rt; desk.print(b"abcde".as_slice()), Err(Trouble::Failed));
    assert_eq!(rt; desk.print(b"f".as_slice()), Ok(()));
    assert_eq!(rt; desk.printed(), b"abf".as_slice());
    Ok(())
}

#[test]
fn an_honest_desk_never_fails(rt: HostRuntime) -> Result<(), Fail> {
    let mut desk = HonestDesk::new(rt.alloc())?;
    desk.put("a", b"one".as_slice())?;
    assert_eq!(rt; desk.keep("b", b"two".as_slice()), Ok(()));
    let two = fetched(rt.alloc(), &mut desk, "b")?;
    assert_eq!(rt; two.as_slice(), b"two".as_slice());
    let nothing = fetched(rt.alloc(), &mut desk, "c")?;
    assert!(rt; nothing.is_empty());
    assert!(rt; desk.file("a").is_some());
    assert_eq!(rt; desk.print(b"abc".as_slice()), Ok(()));
    assert_eq!(rt; desk.printed(), b"abc".as_slice());
    Ok(())
}

// Bytes that differ from one place to the next.
fn many_bytes(alloc: Global, count: usize) -> Result<Vec<u8>, AllocError> {
    let mut bytes = Vec::new(alloc);
    for i in 0..count {
        bytes.push((i % 251) as u8)?;
    }
    Ok(bytes)
}

const LENGTHS: [usize; 6] = [0, 1, 4095, 4096, 4097, 10000];

#[test]
fn a_reader_is_read_to_its_end(rt: HostRuntime) -> Result<(), Fail> {
    for length in LENGTHS {
        let bytes = many_bytes(rt.alloc(), length)?;
        let mut read = Vec::new(rt.alloc());
        assert_eq!(rt; read_rest(&mut bytes.as_slice(), &mut read), Ok(()));
        assert_eq!(rt; read.as_slice(), bytes.as_slice(), "{length} bytes");
    }
    Ok(())
}

// Gives 3 bytes, and then fails.
#[derive(Drop)]
struct Breaking {
    given: bool,
}

impl Read for Breaking {
    fn read(&mut self, buf: &mut [u8]) -> io::Result<usize> {
        if self.given || buf.len() < 3 {
            return Err(Error::from(ErrorKind::Other));
        }
        self.given = true;
        Ok(3)
    }
}

#[test]
fn a_read_that_fails_is_told(rt: HostRuntime) {
    let mut reader = Breaking { given: false };
    let mut read = Vec::new(rt.alloc());
    assert_eq!(rt; read_rest(&mut reader, &mut read), Err(Trouble::Failed));
}

#[test]
fn the_machine_keeps_what_it_was_given(rt: HostRuntime) -> Result<(), Fail> {
    let mut desk = HostDesk::new(&rt, rt.alloc());
    for length in LENGTHS {
        let bytes = many_bytes(rt.alloc(), length)?;
        assert_eq!(rt; desk.keep("kept.txt", bytes.as_slice()), Ok(()));
        let read = fetched(rt.alloc(), &mut desk, "kept.txt")?;
        assert_eq!(rt; read.as_slice(), bytes.as_slice(), "{length} bytes");
    }
    assert_eq!(rt; desk.print(b"printed\n".as_slice()), Ok(()));
    Ok(())
}

#[test]
fn the_machine_tells_what_it_cannot_do(rt: HostRuntime) {
    let mut desk = HostDesk::new(&rt, rt.alloc());
    for name in ["not/there.txt", "."] {
        assert_eq!(rt;
            desk.fetch(name, &mut Bytes::new(rt.alloc())),
            Err(Trouble::Failed),
            "{name}"
        );
    }
    assert_eq!(rt;
        desk.keep("not/there.txt", b"".as_slice()),
        Err(Trouble::Failed)
    );
}

fn take_two_steps<L: Ledger>(blank: Blank)
    requires name { blank.name ≡ L.name }
    requires parts { blank.parts ≡ L.parts }
    requires some { 0 < L.parts }
{
    let mut steps = Steps::<L>::new(blank);
    steps.tick();
    steps.tick();
}

#[test]
fn steps_are_counted() {
    take_two_steps::<Brand>(Blank::new(1));
}

#[test]
fn operators_at_the_edges(rt: HostRuntime) {
    let minus_one = 4294967295u32;
    let least = 2147483648u32;
    for (op, args, value) in [
        (Op::DivideInt, [least, minus_one], least),
        (Op::RemainderInt, [minus_one, 2], minus_one),
        (Op::DivideUint, [minus_one, 2], 2147483647),
        (Op::DivideInt, [7, 0], 0),
        (Op::ShiftLeft, [1, 33], 2),
        (Op::ShiftRightInt, [least, 31], minus_one),
        (Op::ShiftRightUint, [least, 31], 1),
        (Op::LessInt, [least, 0], 1),
        (Op::LessUint, [least, 0], 0),
    ] {
        assert_eq!(rt; apply(op, &args), value, "{op:?}");
    }
}
