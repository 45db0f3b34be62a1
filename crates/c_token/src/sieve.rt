// The tokens that are left, held as they come.
ghost use Rattle.std.specs.Prelude.{◌≡◌, map, take, drop, IfOk, OnOk};
ghost use Rattle.c_token.specs.Macros.{all_at};
ghost use Rattle.c_token.specs.Seen.{token};
ghost use Rattle.c_token.specs.Sieving.{state, keep, hold, hold_again, feed, beginning};

use crate::skim::{Context, Last, Region, context_after, judged, plus};
use crate::words::Word;
use dg_base::{OutOfMemory, Place};
use std::alloc::Global;

/// The most tokens that a list may have.
pub const MAX_TOKENS: usize = 65536;

/// How many bytes the tokens that are held may have together: 16 MiB. A text of 1 MiB gives more only where its macros repeat long
/// words. Beyond it the answer is want of memory.
const MAX_BYTES: usize = 16777216;

/// So many of these tokens from this one on, or as many as there are.
fn part<'b, 'a>(words: &'b [Word<'a>], first: usize, count: usize) -> &'b [Word<'a>]
    ensures { result.now ≡ take count (drop first words.now) }
{
    let rest = &words[first.min(words.len())..];
    &rest[..count.min(rest.len())]
}

/// The same tokens, all at one place.
fn moved<'a>(alloc: Global, words: &[Word<'a>], place: Place) -> Result<Vec<Word<'a>>, OutOfMemory>
    ensures { IfOk result (λ list. map token list.items ≡ all_at place (map token words.now)) }
{
    let mut list = Vec::new(alloc);
    for word in words {
        list.push(word.at(place))?;
    }
    Ok(list)
}

/// How many bytes tokens have together, up to 2^64 - 1.
fn bytes_of(words: &[Word<'_>]) -> usize {
    let mut bytes: usize = 0;
    for word in words {
        bytes = bytes.saturating_add(word.text.len());
    }
    bytes
}

/// Keeps tokens as they come, up to the limit and to the first that isn't supported.
#[derive(Drop)]
pub struct Sieve<'a> {
    alloc: Global,
    pub context: Context,
    pub region: Region,
    /// Whether the tokens that are kept are held and counted, or only looked at.
    pub holds: bool,
    pub words: Vec<Word<'a>>,
    pub count: usize,
    /// How many bytes the tokens that are held have together.
    bytes: usize,
    /// The first token kept that isn't supported.
    pub unsupported: Option<Word<'a>>,
}

impl<'a> Sieve<'a> {
    pub fn new(alloc: Global, holds: bool) -> Sieve<'a>
        ensures { state result ≡ beginning holds }
    {
        Sieve {
            alloc,
            context: Context {
                in_extern: false,
                last: Last::Other,
            },
            region: Region::Live,
            holds,
            words: Vec::new(alloc),
            count: 0,
            bytes: 0,
            unsupported: None,
        }
    }

    /// Holds a token, up to the limit; beyond it, it is counted.
    fn hold(&mut self, word: Word<'a>) -> Result<(), OutOfMemory>
        ensures { OnOk result (state self.new ≡ hold (state self.old) (token word.entry)) }
    {
        if !self.holds {
            return Ok(());
        }
        if self.count < MAX_TOKENS {
            self.weigh(word.text.len())?;
            self.words.push(word)?;
        }
        self.count = plus(self.count, 1)?;
        Ok(())
    }

    /// Holds tokens once more that are held, at another place and up to the limit: so many, from this one on.
    pub fn hold_again(
        &mut self,
        first: usize,
        count: usize,
        place: Place,
    ) -> Result<(), OutOfMemory>
        ensures { OnOk result (state self.new ≡ hold_again first count place (state self.old)) }
    {
        if !self.holds {
            return Ok(());
        }
        let room = MAX_TOKENS.saturating_sub(self.words.len());
        let again = part(self.words.as_slice(), first, count.min(room));
        let bytes = bytes_of(again);
        let mut again = moved(self.alloc, again, place)?;
        self.weigh(bytes)?;
        self.words.append(&mut again)?;
        self.count = plus(self.count, count)?;
        Ok(())
    }

    /// Counts the bytes of tokens; too many are want of memory.
    fn weigh(&mut self, bytes: usize) -> Result<(), OutOfMemory>
        ensures { OnOk result (state self.new ≡ state self.old) }
    {
        self.bytes = self.bytes.saturating_add(bytes);
        if self.bytes > MAX_BYTES {
            return Err(OutOfMemory);
        }
        Ok(())
    }

    fn keep(&mut self, word: Word<'a>) -> Result<(), OutOfMemory>
        ensures { OnOk result (state self.new ≡ keep (state self.old) (token word.entry)) }
    {
        if word.is_dropped() || self.unsupported.is_some() {
            return Ok(());
        }
        if word.is_unsupported() {
            self.unsupported = Some(word);
            return Ok(());
        }
        self.hold(word)
    }

    /// Takes the next token. The flag says of a bracket that opens here whether it is closed.
    pub fn feed(&mut self, word: Word<'a>, closed: bool) -> Result<(), OutOfMemory>
        ensures { OnOk result (state self.new ≡ feed closed (state self.old) (token word.entry)) }
    {
        let class = word.class();
        let judgement = judged(self.context, closed, self.region, class)?;
        self.context = context_after(self.context, class);
        self.region = judgement.region;
        if judgement.keeps {
            self.keep(word)?;
        }
        Ok(())
    }
}
