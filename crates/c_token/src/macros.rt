// Macros: from the pieces of a text to its tokens and the uses of its macros.
ghost use Rattle.std.specs.Prelude.{◌≡◌, ◌≤◌, IsTrue, List, [], ◌∷◌, map, length, drop, IfOk, OnOk, MatchOption};
ghost use Rattle.std.specs.HashMap.{get};
ghost use Rattle.token_list.specs.declared.Token.{Token};
ghost use Rattle.c_token.specs.Bytes.{capped};
ghost use Rattle.c_token.specs.Seen.{segment, token};
ghost use Rattle.c_token.specs.Macros.{Reading, bodies_of, nothing_read, replaced, add, begin, define, read_piece, read};
ghost use Rattle.c_token.specs.Skimming.{effects};
ghost use Rattle.c_token.specs.Tables.{all_tokens, use_tokens, is_below, AllBelow, AreEnds, IsMacro, IsTable, same_name, Reads, IsReader, root_by, root_in};
ghost use Rattle.c_token.specs.Searching.{uses_of};

use crate::TokenKind;
use crate::pieces::Piece;
use crate::segments::Part;
use crate::skim::{Effects, token_effects};
use crate::words::Word;
use dg_base::{List, OutOfMemory, Place};
use std::alloc::Global;
use std::collections::HashMap;
use std::mem;

/// The most tokens that a macro may have.
pub const MAX_MACRO: u32 = 1024;

/// A count as refusals give it.
pub fn capped(count: usize) -> u32
    ensures { result ≡ capped count }
{
    count.min(u32::MAX as usize) as u32
}

/// A token, or what the macro with this number gives at this place.
#[derive(Debug, Clone, Copy, Drop)]
pub enum Use<'a> {
    Plain(Word<'a>),
    Macro(usize, Place),
}

/// A macro: how many tokens it has, and what they come from.
#[derive(Debug, Drop)]
pub struct Macro<'a> {
    /// How many tokens, up to 4294967295.
    pub count: u32,
    pub uses: List<Use<'a>>,
    /// The effects of its last uses: of none, of the last, and so on to all.
    pub ends: List<Effects>,
}

/// The effects of the tokens behind the first of these uses.
pub fn effects_behind(uses: &[Use<'_>], ends: &[Effects], first: usize) -> Effects
    ensures { (bodies : List (List Token)) → AreEnds bodies uses.now ends.now → first ≤ length uses.now → result ≡ effects (all_tokens bodies (drop first uses.now)) }
{
    match ends.get(uses.len().saturating_sub(first)) {
        Some(effects) => *effects,
        None => Effects::nothing(),
    }
}

/// The effects of the tokens of a use.
pub fn use_effects(macros: &[Macro<'_>], one: &Use<'_>) -> Effects
    requires { IsTrue (is_below (length macros.now) one.now) }
    ensures { (bodies : List (List Token)) → IsTable macros.now bodies → result ≡ effects (use_tokens bodies one.now) }
{
    match one {
        Use::Plain(word) => token_effects(word.class()),
        Use::Macro(number, _) => {
            let used = &macros[*number];
            effects_behind(used.uses.as_slice(), used.ends.as_slice(), 0)
        }
    }
}

/// The effects of the last of these uses: of none, of the last, and so on to all.
pub fn ends_of(
    alloc: Global,
    macros: &[Macro<'_>],
    uses: &[Use<'_>],
) -> Result<List<Effects>, OutOfMemory>
    requires { AllBelow (length macros.now) uses.now }
    ensures { (bodies : List (List Token)) → IsTable macros.now bodies → IfOk result (λ ends. AreEnds bodies uses.now ends) }
{
    let mut ends = List::new(alloc);
    let mut behind = Effects::nothing();
    let mut first = uses.len();
    ends.push(behind)?;
    while first > 0 {
        first -= 1;
        behind = use_effects(macros, &uses[first]).before(&behind)?;
        ends.push(behind)?;
    }
    Ok(ends)
}

fn use_count(macros: &[Macro<'_>], one: &Use<'_>) -> u32
    requires { IsTrue (is_below (length macros.now) one.now) }
    ensures { (bodies : List (List Token)) → IsTable macros.now bodies → result ≡ capped (length (use_tokens bodies one.now)) }
{
    match one {
        Use::Plain(_) => 1,
        Use::Macro(number, _) => macros[*number].count,
    }
}

fn count_of(macros: &[Macro<'_>], uses: &[Use<'_>]) -> u32
    requires { AllBelow (length macros.now) uses.now }
    ensures { (bodies : List (List Token)) → IsTable macros.now bodies → result ≡ capped (length (all_tokens bodies uses.now)) }
{
    let mut count: u32 = 0;
    for one in uses {
        count = count.saturating_add(use_count(macros, one));
    }
    count
}

fn macro_from<'a>(
    alloc: Global,
    macros: &[Macro<'a>],
    uses: List<Use<'a>>,
) -> Result<Macro<'a>, OutOfMemory>
    requires { AllBelow (length macros.now) uses }
    ensures { (bodies : List (List Token)) → IsTable macros.now bodies → IfOk result (λ m. IsMacro bodies (length macros.now) m (all_tokens bodies uses.entry)) }
{
    let count = count_of(macros, uses.as_slice());
    let ends = ends_of(alloc, macros, uses.as_slice())?;
    Ok(Macro { count, uses, ends })
}

fn root_by(number: usize, one: &Use<'_>) -> usize
    ensures { result ≡ root_by number one.now }
{
    match one {
        Use::Plain(_) => number,
        Use::Macro(inner, _) => *inner,
    }
}

/// The macro that gives the same tokens as this one, which has these uses, if it gives any.
fn root_in(number: usize, uses: &[Use<'_>]) -> Option<usize>
    ensures { result ≡ root_in number uses.now }
{
    match uses {
        [] => None,
        [one] => Some(root_by(number, one)),
        [_, _, ..] => Some(number),
    }
}

/// What is read of a text.
#[derive(Drop)]
pub struct Reader<'a> {
    alloc: Global,
    /// For each macro's name the number of the newest macro.
    numbers: HashMap<&'a [u8], usize>,
    /// The macros in the order of their definitions.
    pub macros: List<Macro<'a>>,
    /// The name of the macro whose line is being read.
    pending: Option<&'a [u8]>,
    /// What that line has so far.
    body: List<Use<'a>>,
    /// What stands outside directives.
    pub uses: List<Use<'a>>,
}

impl<'a> Reader<'a> {
    pub fn new(alloc: Global) -> Reader<'a>
        ensures { Reads result nothing_read }
    {
        Reader {
            alloc,
            numbers: HashMap::new(alloc),
            macros: List::new(alloc),
            pending: None,
            body: List::new(alloc),
            uses: List::new(alloc),
        }
    }

    fn number(&self, name: &[u8]) -> Option<usize>
        ensures { result ≡ get same_name self.now.numbers name.entry }
    {
        self.numbers.get(name).copied()
    }

    /// The macro that a name with this number stands for, if it gives any tokens.
    fn root(&self, number: usize) -> Option<usize>
        ensures { result ≡ root_in number (uses_of self.now.macros number) }
    {
        match self.macros.get(number) {
            Some(named) => root_in(number, named.uses.as_slice()),
            None => None,
        }
    }

    /// The use that a token stands for; none, where it is a macro's name that gives no tokens.
    fn use_of(&self, word: Word<'a>) -> Option<Use<'a>>
        ensures { (r : Reading) → Reads self.now r → MatchOption result (replaced r.macros (token word.entry) ≡ []) (λ u. (all_tokens (bodies_of r.macros) (u ∷ []) ≡ replaced r.macros (token word.entry)) × IsTrue (is_below (length self.now.macros) u)) }
    {
        if !word.is_name() {
            return Some(Use::Plain(word));
        }
        let Some(number) = self.number(word.text) else {
            return Some(Use::Plain(word));
        };
        match self.root(number) {
            Some(root) => Some(Use::Macro(root, word.place)),
            None => None,
        }
    }

    fn add(&mut self, word: Word<'a>) -> Result<(), OutOfMemory>
        ensures { (r : Reading) → Reads self.old r → OnOk result (Reads self.new (add r (token word.entry))) }
    {
        let Some(one) = self.use_of(word) else {
            return Ok(());
        };
        if self.pending.is_some() {
            self.body.push(one)?;
        } else {
            self.uses.push(one)?;
        }
        Ok(())
    }

    /// Defines the macro whose line ends.
    fn define(&mut self) -> Result<(), OutOfMemory>
        requires { IsReader self.old }
        ensures { (r : Reading) → Reads self.old r → OnOk result (Reads self.new (define r.pending r)) }
    {
        let Some(name) = self.pending else {
            return Ok(());
        };
        let body = mem::replace(&mut self.body, List::new(self.alloc));
        let number = self.macros.len();
        let made = macro_from(self.alloc, self.macros.as_slice(), body)?;
        self.macros.push(made)?;
        self.numbers.insert(name, number)?;
        self.pending = None;
        Ok(())
    }

    /// Begins a macro's line.
    fn begin(&mut self, name: &'a [u8])
        ensures { (r : Reading) → Reads self.old r → Reads self.new (begin name.now r) }
    {
        let _unused = mem::replace(&mut self.body, List::new(self.alloc));
        self.pending = Some(name);
    }

    fn take(&mut self, part: Part<'a>) -> Result<(), OutOfMemory>
        requires { IsReader self.old }
        ensures { (r : Reading) → Reads self.old r → OnOk result (Reads self.new (read_piece part.entry.piece part.entry.place part.entry.text.now r)) }
    {
        let place = part.place;
        let text = part.text;
        match part.piece {
            Piece::Word(kind) => self.add(Word { kind, place, text }),
            Piece::Refused => self.add(Word {
                kind: TokenKind::Mark,
                place,
                text,
            }),
            Piece::Define(len) => {
                self.begin(&text[text.len().saturating_sub(len)..]);
                Ok(())
            }
            Piece::LineFeed => self.define(),
            Piece::Gap | Piece::Comment | Piece::Include => Ok(()),
        }
    }
}

/// Reads the pieces of a text.
pub fn read<'a>(alloc: Global, parts: &[Part<'a>]) -> Result<Reader<'a>, OutOfMemory>
    ensures { IfOk result (λ reader. Reads reader (read nothing_read (map segment parts.now))) }
{
    let mut reader = Reader::new(alloc);
    for part in parts {
        reader.take(*part)?;
    }
    reader.define()?;
    Ok(reader)
}
