//! The tokens of a text, or why it has none.
ghost use Rattle.std.specs.Prelude.{◌≡◌, ◌≤◌, List, map, take, length, find, option_map, None, is_none, Result, Err, IfOk};
ghost use Rattle.dg_base.specs.declared.Place.{Place};
ghost use Rattle.token_list.specs.declared.Token.{Token};
ghost use Rattle.c_token.specs.Bytes.{capped};
ghost use Rattle.c_token.specs.Dropping.{kept};
ghost use Rattle.c_token.specs.Macros.{nothing_read, read};
ghost use Rattle.c_token.specs.Pieces.{Segment, beginning, behind, all_segments};
ghost use Rattle.c_token.specs.Searching.{Sifts};
ghost use Rattle.c_token.specs.Seen.{segment, token, GivesSegments};
ghost use Rattle.c_token.specs.Sieving.{state};
ghost use Rattle.c_token.specs.Tables.{IsTable};
ghost use Rattle.c_token.specs.Tokens.{is_unsupported, meant, first_long, limited, supported, tokens_read, tokens_of, answer, Gives};

use crate::macros::{MAX_MACRO, Macro, capped, read};
use crate::search::sift;
use crate::segments::{Part, Stuck, behind, segments};
use crate::sieve::{MAX_TOKENS, Sieve};
use crate::words::Word;
use crate::{Token, Tokens};
use dg_base::{LimitKind, List, OutOfMemory, Place, Refusal};
use std::alloc::Global;

const MAX_TEXT: usize = 1048576;

/// What a text comes to, where memory doesn't run out.
type Answer = Result<Tokens, Refusal>;

fn tokens_from(alloc: Global, words: &[Word<'_>]) -> Result<List<Token>, OutOfMemory>
    ensures { IfOk result (λ list. list ≡ map meant (map token words.now)) }
{
    let mut list = List::new(alloc);
    for word in words {
        list.push(word.meant(alloc)?)?;
    }
    Ok(list)
}

/// The count of the first macro that has too many tokens.
fn first_long(macros: &[Macro<'_>]) -> Option<u32>
    ensures { (bodies : List (List Token)) → IsTable macros.now bodies → result ≡ option_map (λ body. capped (length body)) (first_long bodies) }
{
    for one in macros {
        let count = one.count;
        if count > MAX_MACRO {
            return Some(count);
        }
    }
    None
}

/// The tokens that are left, where they are not too many.
fn limited(alloc: Global, end: Place, sieve: &Sieve<'_>) -> Result<Answer, OutOfMemory>
    ensures { (words : List Token) → (state sieve.now).words ≡ take MAX_TOKENS words → (state sieve.now).count ≡ length words → IfOk result (λ a. a ≡ limited end None words) }
{
    if sieve.count > MAX_TOKENS {
        let count = capped(sieve.count);
        return Ok(Err(Refusal::Limit(LimitKind::Tokens, count)));
    }
    let list = tokens_from(alloc, sieve.words.as_slice())?;
    Ok(Ok(Tokens { list, end }))
}

fn supported(
    alloc: Global,
    end: Place,
    long: Option<u32>,
    sieve: &Sieve<'_>,
) -> Result<Answer, OutOfMemory>
    ensures { (bodies : List (List Token)) (all : List Token) → long ≡ option_map (λ body. capped (length body)) (first_long bodies) → Sifts (is_none long) all (state sieve.now) → IfOk result (λ a. a ≡ supported end (find is_unsupported (kept all)) (first_long bodies) (kept all)) }
{
    if let Some(word) = &sieve.unsupported {
        let shown = word.shown(alloc)?;
        return Ok(Err(Refusal::Unsupported(word.place, shown)));
    }
    if let Some(count) = long {
        return Ok(Err(Refusal::Limit(LimitKind::Macro, count)));
    }
    limited(alloc, end, sieve)
}

fn tokens_in(alloc: Global, end: Place, parts: &[Part<'_>]) -> Result<Answer, OutOfMemory>
    ensures { IfOk result (λ a. a ≡ tokens_read end (read nothing_read (map segment parts.now))) }
{
    let reader = read(alloc, parts)?;
    let macros = reader.macros.as_slice();
    let long = first_long(macros);
    let sieve = sift(alloc, macros, reader.uses.as_slice(), long.is_none())?;
    supported(alloc, end, long, &sieve)
}

fn refused(stuck: Stuck) -> Result<Answer, OutOfMemory>
    ensures { (end : Place) (r : Result (List Segment) Place) → GivesSegments (Err stuck) r → IfOk result (λ a. a ≡ tokens_of end r) }
{
    match stuck {
        Stuck::BadByte(place) => Ok(Err(Refusal::BadByte(place))),
        Stuck::OutOfMemory => Err(OutOfMemory),
    }
}

fn read_tokens(alloc: Global, text: &[u8]) -> Result<Answer, OutOfMemory>
    requires { length text.now ≤ 1048576 }
    ensures { IfOk result (λ a. a ≡ tokens_of (behind beginning text.now) (all_segments text.now)) }
{
    let end = behind(Place { line: 1, col: 1 }, text);
    match segments(alloc, text) {
        Ok(parts) => tokens_in(alloc, end, parts.as_slice()),
        Err(stuck) => refused(stuck),
    }
}

/// The tokens of a text. The first of these that holds refuses it: it has more than 1048576 bytes; a byte outside comments
/// begins no token; a word isn't supported; a macro has more than 1024 tokens; there are more than 65536 tokens.
///
/// Memory grows with the text and with the limits, and so does time, however many tokens its macros give: a macro is passed once in
/// each way in which it is used (what stands before it, and the brackets that are open there and close behind), and what was kept
/// of it is held once more at each further use of that kind.
///
/// Want of memory is also the answer where the tokens that are left have more than 16777216 bytes together; where macros are
/// used in more than 131072 ways, or in ways that have more than 67108864 tokens and uses together; and where a macro opens or closes
/// 2^64 brackets or more, and what is left hangs on how many.
pub fn tokens(alloc: Global, text: &[u8]) -> Result<Tokens, Refusal>
    ensures { Gives result (answer text.now) }
{
    if text.len() > MAX_TEXT {
        let count = capped(text.len());
        return Err(Refusal::Limit(LimitKind::Text, count));
    }
    match read_tokens(alloc, text) {
        Ok(answer) => answer,
        Err(_) => Err(Refusal::OutOfMemory),
    }
}
