// The piece at the front of a text: a token, a blank, a comment or a directive.
ghost use Rattle.std.specs.Prelude.{◌≡◌, ◌+◌, ◌<◌, ◌≤◌, length, drop, take, IfSome};
ghost use Rattle.c_token.specs.Pieces.{past_spaces, spaced_name_len, spaced_name, names_macro, directive, ended, plain_piece, front, mode_after};

use crate::TokenKind;
use crate::bytes::{
    comment_end, gap_len, is_digit, is_gap, is_letter, line_len, mark_len, name_len, name_tail_len,
    number_tail_len, quoted_end, spaces_len, starts,
};

/// What a piece of a text is.
#[derive(Debug, Clone, Copy, PartialEq, Eq, Drop)]
pub enum Piece {
    /// A token.
    Word(TokenKind),
    LineFeed,
    /// Other blanks, or what is skipped behind a directive.
    Gap,
    Comment,
    /// The head of a definition, which ends in a name of so many bytes.
    Define(usize),
    /// An `#include` without what it includes.
    Include,
    /// The head of any other directive.
    Refused,
}

/// Where a piece stands.
#[derive(Debug, Clone, Copy, PartialEq, Eq, Drop)]
pub enum Mode {
    /// In a line with only blanks and comments before it.
    LineStart,
    /// Behind a token of its line.
    InLine,
    /// In the line of a definition.
    InMacro,
    /// Behind a directive that isn't read.
    Skipping,
}

/// A piece at the front of a text, and its length in bytes.
#[derive(Debug, Clone, Copy, PartialEq, Eq, Drop)]
pub struct Front {
    pub piece: Piece,
    pub len: usize,
}

fn past_spaces(text: &[u8]) -> &[u8]
    ensures { result.now ≡ past_spaces text.now }
{
    &text[spaces_len(text)..]
}

fn spaced_name_len(text: &[u8]) -> usize
    ensures value { result ≡ spaced_name_len text.now }
    ensures within { result ≤ length text.now }
{
    spaces_len(text) + name_len(past_spaces(text))
}

fn spaced_name(text: &[u8]) -> &[u8]
    ensures { result.now ≡ spaced_name text.now }
{
    let text = past_spaces(text);
    &text[..name_len(text)]
}

fn names_macro(text: &[u8]) -> bool
    ensures { result ≡ names_macro text.now }
{
    name_len(past_spaces(text)) > 0 && !starts(b'(', &text[spaced_name_len(text)..])
}

/// The directive whose `#` stands before this text.
fn directive(text: &[u8]) -> Front
    requires { length text.now ≤ 1048576 }
    ensures within { (0 < result.len) × (result.len ≤ length text.now + 1) }
    ensures value { result ≡ directive text.now }
{
    let name = spaced_name(text);
    let len = 1 + spaced_name_len(text);
    let rest = &text[spaced_name_len(text)..];
    if name == b"include".as_slice() {
        let piece = Piece::Include;
        Front { piece, len }
    } else if name == b"define".as_slice() && names_macro(rest) {
        let piece = Piece::Define(name_len(past_spaces(rest)));
        let len = len + spaced_name_len(rest);
        Front { piece, len }
    } else {
        let piece = Piece::Refused;
        Front { piece, len }
    }
}

fn ended(piece: Piece, end: Option<usize>) -> Option<Front>
    ensures { result ≡ ended piece end }
{
    let len = end?;
    Some(Front { piece, len })
}

/// A piece that begins with no line feed and no `#`.
fn plain_piece(text: &[u8]) -> Option<Front>
    ensures within { IfSome result (λ f. (0 < f.len) × (f.len ≤ length text.now)) }
    ensures value { result ≡ plain_piece text.now }
{
    let [first, rest @ ..] = text else {
        return None;
    };
    let (piece, len) = if is_gap(*first) {
        (Piece::Gap, Some(1 + gap_len(rest)))
    } else if is_letter(*first) {
        (Piece::Word(TokenKind::Name), Some(1 + name_tail_len(rest)))
    } else if is_digit(*first) {
        (
            Piece::Word(TokenKind::Number),
            Some(1 + number_tail_len(rest)),
        )
    } else if *first == b'"' {
        (Piece::Word(TokenKind::Text), quoted_end(text))
    } else if *first == b'/' && starts(b'*', rest) {
        (Piece::Comment, comment_end(text))
    } else if *first == b'/' && starts(b'/', rest) {
        (Piece::Comment, Some(1 + line_len(rest)))
    } else {
        (Piece::Word(TokenKind::Mark), mark_len(text))
    };
    ended(piece, len)
}

/// The piece at the front of a text.
pub fn front_piece(mode: Mode, text: &[u8]) -> Option<Front>
    requires { length text.now ≤ 1048576 }
    ensures within { IfSome result (λ f. (0 < f.len) × (f.len ≤ length text.now)) }
    ensures value { result ≡ front mode text.now }
{
    let [first, rest @ ..] = text else {
        return None;
    };
    if *first == b'\n' {
        let piece = Piece::LineFeed;
        return Some(Front { piece, len: 1 });
    }
    if mode == Mode::Skipping {
        let piece = Piece::Gap;
        let len = 1 + line_len(rest);
        return Some(Front { piece, len });
    }
    if *first != b'#' {
        return plain_piece(text);
    }
    if mode == Mode::LineStart {
        return Some(directive(rest));
    }
    None
}

/// Where the piece behind this one stands.
pub fn mode_after(mode: Mode, piece: Piece, text: &[u8]) -> Mode
    ensures { result ≡ mode_after mode piece text.now }
{
    match piece {
        Piece::LineFeed => Mode::LineStart,
        Piece::Gap => mode,
        Piece::Comment if mode == Mode::InLine && text.contains(&b'\n') => Mode::LineStart,
        Piece::Comment => mode,
        Piece::Word(_) if mode == Mode::InMacro => Mode::InMacro,
        Piece::Word(_) => Mode::InLine,
        Piece::Define(_) => Mode::InMacro,
        Piece::Include | Piece::Refused => Mode::Skipping,
    }
}
