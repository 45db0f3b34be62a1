// Kinds of bytes, and how long the names, texts, marks and comments at the front of a text are.
ghost use Rattle.std.specs.Prelude.{◌≡◌, ◌+◌, ◌<◌, ◌≤◌, IsTrue, nat_lt, IfSome, false, drop, length, map};
ghost use Rattle.std.specs.List.{list_all, prefix_len};
ghost use Rattle.c_token.specs.Bytes.{is_blank, is_in_line, is_gap, is_space, is_digit, is_letter, is_name_byte, is_number_byte, starts, name_len, quoted_end, comment_end, first_front, mark_len};

const MARKS: [&str; 44] = [
    "<<=", ">>=", "++", "--", "<<", ">>", "<=", ">=", "==", "!=", "&&", "||", "+=", "-=", "*=",
    "/=", "%=", "&=", "|=", "^=", "+", "-", "*", "/", "%", "<", ">", "!", "~", "&", "|", "^", "=",
    "?", ":", ";", ",", ".", "(", ")", "[", "]", "{", "}",
];

fn is_blank(b: u8) -> bool
    ensures { result ≡ is_blank b }
{
    b == b' ' || (9 <= b && b <= 13)
}

/// Whether a byte is a blank within a line.
pub fn is_gap(b: u8) -> bool
    ensures { result ≡ is_gap b }
{
    is_blank(b) && b != b'\n'
}

/// Whether a byte is a space or a tab.
pub fn is_space(b: u8) -> bool
    ensures { result ≡ is_space b }
{
    b == b' ' || b == b'\t'
}

pub fn is_digit(b: u8) -> bool
    ensures { result ≡ is_digit b }
{
    b'0' <= b && b <= b'9'
}

/// Whether a byte may begin a name.
pub fn is_letter(b: u8) -> bool
    ensures { result ≡ is_letter b }
{
    (b'A' <= b && b <= b'Z') || (b'a' <= b && b <= b'z') || b == b'_'
}

fn is_name_byte(b: u8) -> bool
    ensures { result ≡ is_name_byte b }
{
    is_letter(b) || is_digit(b)
}

fn is_number_byte(b: u8) -> bool
    ensures { result ≡ is_number_byte b }
{
    is_name_byte(b) || b == b'.'
}

/// Whether a text begins with this byte.
pub fn starts(b: u8, text: &[u8]) -> bool
    ensures { result ≡ starts b text.now }
{
    match text {
        [first, ..] => *first == b,
        [] => false,
    }
}

/// How many blanks of a line stand at the front.
pub fn gap_len(text: &[u8]) -> usize
    ensures value { result ≡ prefix_len is_gap text.now }
    ensures within { result ≤ length text.now }
{
    text.iter().take_while(|b| is_gap(**b)).count()
}

/// How many spaces and tabs stand at the front.
pub fn spaces_len(text: &[u8]) -> usize
    ensures value { result ≡ prefix_len is_space text.now }
    ensures within { result ≤ length text.now }
{
    text.iter().take_while(|b| is_space(**b)).count()
}

/// How many bytes stand before the line's end.
pub fn line_len(text: &[u8]) -> usize
    ensures value { result ≡ prefix_len is_in_line text.now }
    ensures within { result ≤ length text.now }
{
    text.iter().take_while(|b| **b != b'\n').count()
}

/// How many bytes at the front may stand in a name.
pub fn name_tail_len(text: &[u8]) -> usize
    ensures value { result ≡ prefix_len is_name_byte text.now }
    ensures within { result ≤ length text.now }
{
    text.iter().take_while(|b| is_name_byte(**b)).count()
}

/// How many bytes at the front may stand in a number.
pub fn number_tail_len(text: &[u8]) -> usize
    ensures value { result ≡ prefix_len is_number_byte text.now }
    ensures within { result ≤ length text.now }
{
    text.iter().take_while(|b| is_number_byte(**b)).count()
}

/// The length of the name at the front, or 0.
pub fn name_len(text: &[u8]) -> usize
    ensures value { result ≡ name_len text.now }
    ensures within { result ≤ length text.now }
{
    match text {
        [first, rest @ ..] if is_letter(*first) => 1 + name_tail_len(rest),
        _ => 0,
    }
}

/// Where a quoted text ends that begins at the front, counted from there.
pub fn quoted_end(text: &[u8]) -> Option<usize>
    requires { 1 ≤ length text.now }
    ensures within { IfSome result (λ n. (0 < n) × (n ≤ length text.now)) }
    ensures value { result ≡ quoted_end false 1 (drop 1 text.now) }
{
    let mut escaped = false;
    let mut at = 1;
    while at < text.len() {
        let b = text[at];
        at += 1;
        if b == b'\n' {
            return None;
        }
        if !escaped && b == b'"' {
            return Some(at);
        }
        escaped = !escaped && b == b'\\';
    }
    None
}

/// Where a `/*` comment ends that begins at the front, counted from there.
pub fn comment_end(text: &[u8]) -> Option<usize>
    requires { 2 ≤ length text.now }
    ensures within { IfSome result (λ n. (0 < n) × (n ≤ length text.now)) }
    ensures value { result ≡ comment_end 2 (drop 2 text.now) }
{
    let mut at = 2;
    while at < text.len() {
        let b = text[at];
        at += 1;
        if b == b'*' && starts(b'/', &text[at..]) {
            return Some(at + 1);
        }
    }
    None
}

/// The length of the first of these words that stands at the front.
#[tactic(auto, using(crate::proofs::Marks::first_front_from))]
fn first_front(words: &[&str], text: &[u8]) -> Option<usize>
    requires { IsTrue (list_all (λ w. nat_lt 0 (length w.now)) words.now) }
    ensures within { IfSome result (λ n. (0 < n) × (n ≤ length text.now)) }
    ensures value { result ≡ first_front (map (λ w. w.now) words.now) text.now }
{
    for word in words {
        if text.starts_with(word.as_bytes()) {
            return Some(word.len());
        }
    }
    None
}

/// The length of the longest mark at the front.
pub fn mark_len(text: &[u8]) -> Option<usize>
    ensures within { IfSome result (λ n. (0 < n) × (n ≤ length text.now)) }
    ensures value { result ≡ mark_len text.now }
{
    first_front(&MARKS, text)
}
