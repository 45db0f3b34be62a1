// Tokens of texts: where they are cut, directives and macros, what is left out, refusals, limits.
use c_token::lexer::tokens;
use c_token::{TokenKind, is_unsigned, number_value};
use dg_base::{LimitKind, OutOfMemory, Place, Refusal};
use std::alloc::Global;

fn letter(kind: TokenKind) -> char {
    match kind {
        TokenKind::Name => 'n',
        TokenKind::Number => 'd',
        TokenKind::Text => 't',
        TokenKind::Mark => 'm',
    }
}

fn limit_name(kind: LimitKind) -> &'static str {
    match kind {
        LimitKind::Text => "text",
        LimitKind::Macro => "macro",
        LimitKind::Tokens => "tokens",
        _ => "another limit",
    }
}

fn push_bytes(spelled: &mut String, bytes: &[u8]) -> Result<(), OutOfMemory> {
    for byte in bytes {
        spelled.push(char::from(*byte))?;
    }
    Ok(())
}

// The refusal in words.
fn told(alloc: Global, refusal: &Refusal) -> Result<String, OutOfMemory> {
    match refusal {
        Refusal::BadByte(Place { line, col }) => Ok(format!(in alloc; "bad byte {line}:{col}")?),
        Refusal::Unsupported(Place { line, col }, word) => {
            let mut told = format!(in alloc; "unsupported {line}:{col} ")?;
            push_bytes(&mut told, word.as_slice())?;
            Ok(told)
        }
        Refusal::Limit(kind, count) => {
            let name = limit_name(*kind);
            Ok(format!(in alloc; "{name} {count}")?)
        }
        _ => Ok(String::from_str(alloc, "another refusal")?),
    }
}

// The texts of the tokens, each with a blank behind it, or the refusal in words.
fn spelled(alloc: Global, text: &str) -> Result<String, OutOfMemory> {
    match tokens(alloc, text.as_bytes()) {
        Ok(tokens) => {
            let mut spelled = String::new(alloc);
            for token in tokens.list.as_slice() {
                push_bytes(&mut spelled, token.text.as_slice())?;
                spelled.push(' ')?;
            }
            Ok(spelled)
        }
        Err(refusal) => told(alloc, &refusal),
    }
}

// The kind and the place of each token, and the place of the end.
fn placed(alloc: Global, text: &str) -> Result<String, OutOfMemory> {
    let mut placed = String::new(alloc);
    let Ok(tokens) = tokens(alloc, text.as_bytes()) else {
        return Ok(placed);
    };
    for token in tokens.list.as_slice() {
        let Place { line, col } = token.place;
        let kind = letter(token.kind);
        placed.push_str(format!(in alloc; "{kind} {line}:{col}, ")?.as_str())?;
    }
    let Place { line, col } = tokens.end;
    placed.push_str(format!(in alloc; "{line}:{col}")?.as_str())?;
    Ok(placed)
}

// Whether the text has this answer; what it has in its place is printed.
fn has_answer(rt: &HostRuntime, text: &str, want: &str) -> bool {
    match spelled(rt.alloc(), text) {
        Ok(got) if got.as_str() == want => true,
        Ok(got) => {
            let _ = println!(rt; "{got:?}, not {want:?}");
            false
        }
        Err(_) => false,
    }
}

#[test]
fn cuts_the_longest(rt: HostRuntime) {
    for (text, want) in [
        ("", ""),
        ("int x1 = 12u;\n", "int x1 = 12u ; "),
        ("a+++b", "a ++ + b "),
        ("x<<=1", "x <<= 1 "),
        ("a<<b>>=c<=d", "a << b >>= c <= d "),
        ("a&&b&c|=d||e", "a && b & c |= d || e "),
        ("x.y;a.b", "x . y ; a . b "),
        (".5.x", "unsupported 1:2 5.x"),
        ("1.5.x", "unsupported 1:1 1.5.x"),
        ("f(\"a\\\"b;\")", "f ( \"a\\\"b;\" ) "),
        ("\"a/*b\"/*\"*/c", "\"a/*b\" c "),
        ("a/*b*/+1", "a + 1 "),
        ("/* /* */ a */ b", "a * / b "),
        ("/**/a/***/b// c /* d\ne", "a b e "),
        ("a / b", "a / b "),
        ("a /* b", "bad byte 1:3"),
        ("a\n  /*/ b", "bad byte 2:3"),
        ("\"abc", "bad byte 1:1"),
        ("x \"abc\ndef\"", "bad byte 1:3"),
        ("x \"abc\\", "bad byte 1:3"),
        ("a $ @", "bad byte 1:3"),
        ("'a'", "bad byte 1:1"),
        ("/* $ */ // @\n\"$\"", "\"$\" "),
    ] {
        assert!(rt; has_answer(&rt, text, want), "at {text}");
    }
}

#[test]
fn places_tokens(rt: HostRuntime) {
    for (text, want) in [
        ("", "1:1"),
        ("a/*b*/+1", "n 1:1, m 1:7, d 1:8, 1:9"),
        ("\"x\"\n\t\r\x0b\x0cy", "t 1:1, n 2:5, 2:6"),
        ("/*\u{e9}*/x\n", "n 1:7, 2:1"),
        ("/*\n\n*/ x", "n 3:4, 3:5"),
        ("#define P a + 1\n x P", "n 2:2, n 2:4, m 2:4, d 2:4, 2:5"),
        (
            "#define P a\n#define Q P;\nQ\n  Q",
            "n 3:1, m 3:1, n 4:3, m 4:3, 4:4",
        ),
        (
            "a __LINE__ NULL __func__",
            "n 1:1, d 1:3, d 1:12, t 1:17, 1:25",
        ),
    ] {
        let got = placed(rt.alloc(), text);
        assert!(rt;
            matches!(&got, Ok(got) if got.as_str() == want),
            "at {text}"
        );
    }
}

#[test]
fn reads_directives(rt: HostRuntime) {
    for (text, want) in [
        ("#include <a$b.h> /*\nint x;", "int x ; "),
        ("  /* */ # \tinclude \"a\nx", "x "),
        ("x # include", "bad byte 1:3"),
        ("/*\n*/ #include x", ""),
        ("x /*\n*/ #include x", "x "),
        ("#define N 3\nN", "3 "),
        ("# define N\nN x", "x "),
        ("#define N 3 /*\n*/ + 4\nN", "3 + 4 "),
        ("#define N 3 // 4\nN", "3 "),
        ("#define N a /*\n #define M */ b\nN", "a b "),
        ("#define N a /*\n*/ # b\nN", "bad byte 2:4"),
        ("#define N #x\n", "bad byte 1:11"),
        ("#define A x\n#define B A A\n#define A y\nA B", "y x x "),
        ("#define A A b\nA", "A b "),
        ("#define A 1\nA", "1 "),
        ("#define A 1", ""),
        ("#define F(x) x\n", "unsupported 1:1 #define"),
        ("#define F (x)\nF", "( x ) "),
        ("#define\n", "unsupported 1:1 #define"),
        ("#define 1 $\n", "unsupported 1:1 #define"),
        ("a\n # \t if $ /* 1\nb", "unsupported 2:2 #if"),
        ("#\n", "unsupported 1:1 #"),
        ("# 1 \"a.c\"\n", "unsupported 1:1 #"),
        ("#if 1\n$", "bad byte 2:1"),
        ("extern\n#if\n; a", "a "),
        ("#define NULL 1\nNULL", "1 "),
        ("#define __LINE__ 7\n__LINE__", "7 "),
        ("#define main f\nmain(a)", "f ( a ) "),
        ("a NULL \"NULL\"", "a 0 \"NULL\" "),
        ("#define L __LINE__\n\n L __LINE__\n__LINE__", "3 3 4 "),
        (
            "__FILE__ __func__ __FUNCTION__ __PRETTY_FUNCTION__",
            "\"\" \"\" \"\" \"\" ",
        ),
    ] {
        assert!(rt; has_answer(&rt, text, want), "at {text}");
    }
}

#[test]
fn leaves_out(rt: HostRuntime) {
    for (text, want) in [
        ("int main(int argc, char **argv) { }", "int main ( ) { } "),
        ("main(f(x), (y)) a", "main ( ) a "),
        ("main(struct", "main ( "),
        ("main const (char) ", "unsupported 1:13 char"),
        ("extern int printf(const char *, ...); a", "a "),
        ("extern int x", ""),
        ("a extern struct extern ; b ; c", "a b ; c "),
        ("void f() __attribute__((noreturn));", "void f ( ) ; "),
        ("main(extern x) a; b) c", "main ( ) c "),
        ("__attribute__ x", "x "),
        ("__attribute__ const (x)", "( x ) "),
        ("__attribute__ __attribute__((a)) b", "b "),
        ("__attribute__((a) b", "( ( a ) b "),
        ("__attribute__((a __attribute__((struct)) c", "( ( a c "),
        (
            "__attribute__(a __attribute__((struct) c",
            "unsupported 1:32 struct",
        ),
        ("__attribute__((struct (x) y)) z)", "z ) "),
        (
            "volatile const restrict inline register auto __extension__ __inline __restrict __const a",
            "a ",
        ),
        ("\"extern\" \"const\" a;", "\"extern\" \"const\" a ; "),
        ("#define E extern\nE struct; x", "x "),
    ] {
        assert!(rt; has_answer(&rt, text, want), "at {text}");
    }
}

#[test]
fn refuses_words(rt: HostRuntime) {
    for word in [
        "struct",
        "union",
        "enum",
        "typedef",
        "float",
        "double",
        "char",
        "short",
        "long",
        "switch",
        "case",
        "default",
        "goto",
        "sizeof",
        "asm",
        "_Atomic",
        "_Bool",
        "_Thread_local",
        "pthread_cond_t",
        "pthread_rwlock_t",
        "pthread_barrier_t",
        "sem_t",
        "2147483648",
        "4294967296u",
        "0x",
        "0xu",
        "0x100000000",
        "0x1g",
        "08",
        "09u",
        "040000000000",
        "0u1",
        "1U1",
        "1l",
        "1.0",
        "1uu",
    ] {
        let Ok(text) = format!(in rt.alloc(); "int x;\n {word} y;") else {
            return assert!(rt; false);
        };
        let Ok(want) = format!(in rt.alloc(); "unsupported 2:2 {word}") else {
            return assert!(rt; false);
        };
        assert!(rt; has_answer(&rt, text.as_str(), want.as_str()));
    }
    assert!(rt;
        has_answer(
            &rt,
            "x \"struct\" structs Char",
            "x \"struct\" structs Char "
        )
    );
}

#[test]
fn knows_numbers(rt: HostRuntime) {
    for (text, want) in [
        ("0", Some(0)),
        ("0u", Some(0)),
        ("00u", Some(0)),
        ("2147483647", Some(2147483647)),
        ("2147483648", None),
        ("2147483648u", Some(2147483648)),
        ("4294967295U", Some(4294967295)),
        ("4294967296u", None),
        ("0xfFu", Some(255)),
        ("0XFFFFFFFF", Some(4294967295)),
        ("0x100000000", None),
        ("037777777777", Some(4294967295)),
        ("040000000000u", None),
        ("09u", None),
        ("99999999999999999999999999999", None),
        ("0000000000000000000000000000000000000001", Some(1)),
    ] {
        assert_eq!(rt; number_value(text.as_bytes()), want, "at {text}");
    }
    assert!(rt; is_unsigned(b"1U", 1) && is_unsigned(b"0x80000000", 2147483648));
    assert!(rt; !is_unsigned(b"0x7fffffff", 2147483647));
}

// So many times the part between a beginning and an end.
fn repeated(
    alloc: Global,
    begin: &str,
    part: &str,
    times: usize,
    end: &str,
) -> Result<String, OutOfMemory> {
    let mut text = String::from_str(alloc, begin)?;
    for _ in 0..times {
        text.push_str(part)?;
    }
    text.push_str(end)?;
    Ok(text)
}

// 64 of them.
const BLANKS: &str = "                                                                ";

#[test]
fn keeps_limits(rt: HostRuntime) {
    for (begin, part, times, end, want) in [
        (
            "$",
            BLANKS,
            16383,
            "                                                               ",
            "bad byte 1:1",
        ),
        ("$", BLANKS, 16383, BLANKS, "text 1048577"),
        ("#define A ", "x ", 1024, "\nx", "x "),
        ("#define A ", "x ", 1025, "\nx", "macro 1025"),
        ("#define A ", "x ", 1025, "\nchar", "unsupported 2:1 char"),
        ("#define A ", "x ", 1025, "\n#define B A A\nx", "macro 1025"),
        (
            "#define A x x\n#define B ",
            "A ",
            513,
            "\n#define C A B\nx",
            "macro 1026",
        ),
    ] {
        let Ok(text) = repeated(rt.alloc(), begin, part, times, end) else {
            return assert!(rt; false);
        };
        assert!(rt; has_answer(&rt, text.as_str(), want), "at {want}");
    }
}

// So many uses of a macro of 1024 tokens, and what stands behind them.
fn used(alloc: Global, times: usize, end: &str) -> Result<String, OutOfMemory> {
    let line = repeated(alloc, "#define A ", ";", 1024, "\n")?;
    repeated(alloc, line.as_str(), "A ", times, end)
}

#[test]
fn counts_tokens(rt: HostRuntime) {
    let Ok(text) = used(rt.alloc(), 64, ";") else {
        return assert!(rt; false);
    };
    assert!(rt; has_answer(&rt, text.as_str(), "tokens 65537"));
}

// A text that doubles a macro 40 times, with this last line.
fn doubled(alloc: Global, body: &str, last: &str) -> Result<String, OutOfMemory> {
    let mut text = format!(in alloc; "#define A0 {body}\n")?;
    for n in 0..40 {
        let line = format!(in alloc; "#define A{} A{n} A{n}\n", n + 1)?;
        text.push_str(line.as_str())?;
    }
    text.push_str(last)?;
    Ok(text)
}

#[test]
fn doubles(rt: HostRuntime) {
    for (body, last, want) in [
        ("x", "", "macro 2048"),
        ("", "A40 x", "x "),
        ("f(1);", "A40 A40\nstruct", "unsupported 43:1 struct"),
        (
            "extern struct; __attribute__((struct))",
            "A40\nstruct",
            "unsupported 43:1 struct",
        ),
        ("x struct", "\nA40", "unsupported 43:1 struct"),
        (
            "(",
            "__attribute__ x A40 struct",
            "unsupported 42:21 struct",
        ),
        ("struct", "extern A40;", "macro 2048"),
        ("x", "__attribute__ ( A40", "macro 2048"),
        ("(", "main ( A40", "macro 2048"),
        ("(", "__attribute__ ( A40", "macro 2048"),
        ("main(x)", "A40\nstruct", "unsupported 43:1 struct"),
        ("(", "main ( A40 struct", "macro 2048"),
        (
            "__attribute__((struct))",
            "A40 ( struct",
            "unsupported 42:7 struct",
        ),
    ] {
        let Ok(text) = doubled(rt.alloc(), body, last) else {
            return assert!(rt; false);
        };
        assert!(rt; has_answer(&rt, text.as_str(), want), "at {body}");
    }
}

// So many macros, of which each gives the two before it and a word, and uses of the last one.
fn summed(alloc: Global, macros: u32, uses: usize) -> Result<String, OutOfMemory> {
    let mut text = String::from_str(alloc, "#define B0 x y\n#define B1 B0 x B0\n")?;
    for n in 2..macros {
        let line = format!(in alloc; "#define B{n} B{} x B{}\n", n - 1, n - 2)?;
        text.push_str(line.as_str())?;
    }
    let last = format!(in alloc; "B{} ", macros.saturating_sub(1))?;
    repeated(alloc, text.as_str(), last.as_str(), uses, "")
}

// A macro's tokens are not passed again for each of its uses.
#[test]
fn sums(rt: HostRuntime) {
    let Ok(text) = summed(rt.alloc(), 300, 1000) else {
        return assert!(rt; false);
    };
    assert!(rt; has_answer(&rt, text.as_str(), "macro 1130"));
}

// A macro of 1024 tokens, so many of these parts behind it, and their answer.
#[test]
fn repeats(rt: HostRuntime) {
    for (body, times, part, uses, want) in [
        ("x ", 1024, "A ", 520_000, "tokens 532480000"),
        ("__attribute__(", 512, "A ", 520_000, "tokens 266240000"),
        ("x ", 1024, "#define B A\n", 58_000, ""),
    ] {
        let Ok(line) = repeated(rt.alloc(), "#define A ", body, times, "\n") else {
            return assert!(rt; false);
        };
        let Ok(text) = repeated(rt.alloc(), line.as_str(), part, uses, "") else {
            return assert!(rt; false);
        };
        assert!(rt; has_answer(&rt, text.as_str(), want), "at {want}");
    }
}
