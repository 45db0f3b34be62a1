// Words and numbers of texts.
use crate::{cut, first_word, next_word, number, put, put_number};
use std::test::Fail;

#[test]
fn numbers_without_a_zero_in_front(rt: HostRuntime) {
    for (text, value) in [
        ("0", Some(0)),
        ("10", Some(10)),
        ("4294967295", Some(4294967295)),
        ("4294967296", None),
        ("42949672950", None),
        ("", None),
        ("00", None),
        ("01", None),
        ("+1", None),
        ("1 ", None),
    ] {
        assert_eq!(rt; number(text.as_bytes()), value, "at {text}");
    }
}

#[test]
fn words_of_a_line(rt: HostRuntime) {
    let (word, rest) = first_word(b"one two  end");
    assert!(rt; word == b"one".as_slice());
    match next_word(rest) {
        Some((word, rest)) => {
            assert!(rt; word == b"two".as_slice());
            assert!(rt; rest == b"  end".as_slice());
        }
        None => assert!(rt; false),
    }
    assert!(rt; next_word(b"one").is_none());
    assert!(rt; matches!(cut(b'.', b"3.4.5"), Some((b"3", b"4.5"))));
    assert!(rt; cut(b'.', b"345").is_none());
}

#[test]
fn parts_of_a_text(rt: HostRuntime) -> Result<(), Fail> {
    let mut out = Vec::new(rt.alloc());
    let done = put(&mut out, b"rf ").is_ok() && put_number(&mut out, 4294967295).is_ok();
    assert!(rt; done);
    assert!(rt; out.as_slice() == b"rf 4294967295".as_slice());
    Ok(())
}
