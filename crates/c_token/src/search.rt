// All tokens of a text, macros replaced, through the sieve. A macro's tokens are passed at once where they don't end what is
// left out, or where they were passed before in the same region.
ghost use Rattle.std.specs.Prelude.{◌≡◌, ◌⊎◌, ℕ, ◌+◌, ◌-◌, ◌≤◌, ◌<◌, Bool, true, List, [], ◌∷◌, length, drop, unwrap_or, Some, None, IfOk, OnOk, IfSome, IsTrue};
ghost use Rattle.std.specs.HashMap.{values};
ghost use Rattle.std.specs.List.{All, IsAmong};
ghost use Rattle.dg_base.specs.declared.Place.{Place};
ghost use Rattle.token_list.specs.declared.Token.{Token};
ghost use Rattle.c_token.specs.Skimming.{Skim, bounded, effects, extern_behind, ahead};
ghost use Rattle.c_token.specs.Sieving.{state};
ghost use Rattle.c_token.specs.Macros.{all_at};
ghost use Rattle.c_token.specs.declared.skim.Kind.{Kind};
ghost use Rattle.c_token.specs.declared.skim.Region.TheVariants.{Dead};
ghost use Rattle.c_token.specs.Tables.{all_tokens, use_tokens, is_below, AllBelow, AreEnds, IsTable};
ghost use Rattle.c_token.specs.Searching.{use_place, body_at, next_use, uses_of, frames_of, Grows, GrowsBy, GoesOn, IsPassage, left_passage, repeated, Seeks, IsFrame, FramesFit, IsOrdered, Sifts};

use crate::macros::{Macro, Use, effects_behind, ends_of, use_effects};
use crate::sieve::Sieve;
use crate::skim::{Context, Effect, Effects, Region, ahead, exact, least, plus};
use crate::words::Word;
use dg_base::{OutOfMemory, Place};
use std::alloc::Global;
use std::collections::HashMap;

/// How many passages may be kept. Beyond it the answer is want of memory.
const MAX_PASSAGES: usize = 131072;

/// How many uses the macros that are passed may have together, a macro's as often as it is passed. Beyond it the answer is want of
/// memory; it takes macros of thousands of tokens, each behind thousands of different numbers of open brackets.
const MAX_STEPS: usize = 67108864;

/// A macro that is begun: what stands before it, and how many brackets close behind it that it opens.
#[derive(Debug, Clone, Copy, PartialEq, Eq, Hash, Drop)]
pub struct Entry {
    pub number: usize,
    pub context: Context,
    pub region: Region,
    pub behind: usize,
}

/// What stands behind a macro that was passed, and which tokens were kept of it: the first by its number among all that are kept,
/// and how many. Each of them is supported.
#[derive(Debug, Clone, Copy, Drop)]
pub struct Passage {
    pub entry: Entry,
    pub context: Context,
    pub region: Region,
    pub first: usize,
    pub count: usize,
}

/// A macro that is being passed: which of its uses comes next, and how many tokens were kept before it.
#[derive(Debug, Clone, Copy, Drop)]
pub struct Frame {
    pub entry: Entry,
    pub next: usize,
    pub count: usize,
}

/// Passes the tokens of uses.
#[derive(Drop)]
pub struct Search<'a> {
    pub sieve: Sieve<'a>,
    /// The macros that were passed.
    pub passages: HashMap<Entry, Passage>,
    /// The macros that are being passed, the innermost last.
    pub frames: Vec<Frame>,
    /// How many uses the macros that were passed have together.
    steps: usize,
}

fn place_of(one: &Use<'_>) -> Place
    ensures { result ≡ use_place one.now }
{
    match one {
        Use::Plain(word) => word.place,
        Use::Macro(_, place) => *place,
    }
}

/// The use of a macro that comes next.
fn next_use<'a>(macros: &[Macro<'a>], frame: &Frame) -> Option<Use<'a>>
    ensures { result ≡ next_use macros.now frame.now }
{
    let begun = macros.get(frame.entry.number)?;
    begun.uses.get(frame.next).copied()
}

/// The effects of what stands behind the first uses of a macro.
fn effects_left(macros: &[Macro<'_>], number: usize, first: usize) -> Effects
    ensures { (bodies : List (List Token)) → IsTable macros.now bodies → first ≤ length (uses_of macros.now number) → result ≡ effects (all_tokens bodies (drop first (uses_of macros.now number))) }
{
    match macros.get(number) {
        Some(begun) => effects_behind(begun.uses.as_slice(), begun.ends.as_slice(), first),
        None => Effects::nothing(),
    }
}

/// How many brackets close behind a use that aren't opened there, where so many do behind the tokens that follow it.
fn closers_behind(
    macros: &[Macro<'_>],
    one: &Use<'_>,
    in_extern: bool,
    after: &Effects,
    behind: usize,
) -> Result<usize, OutOfMemory>
    requires { IsTrue (is_below (length macros.now) one.now) }
    ensures { (bodies : List (List Token)) (rest : List Token) (k : ℕ) → IsTable macros.now bodies → after.now ≡ effects rest → behind ≡ bounded k → IfOk result (λ n. n ≡ bounded (ahead k (extern_behind in_extern (use_tokens bodies one.now)) rest)) }
{
    let here = use_effects(macros, one).at(in_extern);
    ahead(&after.at(here.in_extern), behind)
}

/// The region behind tokens that don't end what is left out.
fn region_behind(region: Region, effect: &Effect) -> Result<Option<Region>, OutOfMemory>
    ensures { IfOk result (λ o. IfSome o (λ r. (kind : Kind) × ((n : ℕ) × ((region ≡ Dead kind n) × ((c d : ℕ) → effect.now.closers ≡ bounded c → effect.now.openers ≡ bounded d → (c ≤ n) × (r ≡ Dead kind (n - c + d))))))) }
{
    match region {
        Region::Dead(kind, depth) if effect.closers <= depth => {
            let inner = depth - exact(effect.closers)?;
            let depth = plus(inner, exact(effect.openers)?)?;
            Ok(Some(Region::Dead(kind, depth)))
        }
        _ => Ok(None),
    }
}

/// What tokens say of the next one.
fn context_behind(context: Context, effect: &Effect) -> Context
    ensures { result ≡ record { in_extern = effect.now.in_extern; last = unwrap_or effect.now.last context.last } }
{
    Context {
        in_extern: effect.in_extern,
        last: effect.last.unwrap_or(context.last),
    }
}

impl<'a> Search<'a> {
    /// What stands behind a macro that was passed before.
    fn known(&self, entry: &Entry) -> Option<Passage>
        ensures { IfSome result (λ p. (p.entry ≡ entry.now) × (IsAmong (values self.now.passages) p)) }
    {
        let passage = *self.passages.get(entry)?;
        if passage.entry == *entry {
            Some(passage)
        } else {
            None
        }
    }

    /// Passes a macro that was passed before, and holds its tokens once more.
    fn repeat(&mut self, passage: &Passage, place: Place) -> Result<(), OutOfMemory>
        ensures sieve { OnOk result (state self.new.sieve ≡ repeated place passage.now (state self.old.sieve)) }
        ensures passages { self.new.passages ≡ self.old.passages }
        ensures frames { self.new.frames ≡ self.old.frames }
    {
        self.sieve.context = passage.context;
        self.sieve.region = passage.region;
        self.sieve.hold_again(passage.first, passage.count, place)
    }

    /// Passes a macro's tokens at once, or begins to pass them.
    fn enter(
        &mut self,
        macros: &[Macro<'a>],
        number: usize,
        place: Place,
        behind: usize,
    ) -> Result<(), OutOfMemory>
        requires { number < length macros.now }
        ensures frames { OnOk result (Grows number (frames_of self.old) (frames_of self.new)) }
        ensures seeks { (bodies : List (List Token)) (holds : Bool) (j : ℕ) (w : Skim) → IsTable macros.now bodies → behind ≡ bounded j → (state self.old.sieve).unsupported ≡ None → Seeks macros.now bodies place holds self.old (frames_of self.old) j (body_at place bodies number) w → OnOk result (Seeks macros.now bodies place holds self.new (frames_of self.new) 0 [] w) }
    {
        let used = &macros[number];
        let context = self.sieve.context;
        let region = self.sieve.region;
        let effects = effects_behind(used.uses.as_slice(), used.ends.as_slice(), 0);
        let effect = effects.at(context.in_extern);
        if let Some(region) = region_behind(region, &effect)? {
            self.sieve.context = context_behind(context, &effect);
            self.sieve.region = region;
            return Ok(());
        }
        let behind = exact(least(behind, effect.openers))?;
        let entry = Entry {
            number,
            context,
            region,
            behind,
        };
        if let Some(passage) = self.known(&entry) {
            return self.repeat(&passage, place);
        }
        let count = self.sieve.count;
        self.frames.push(Frame {
            entry,
            next: 0,
            count,
        })?;
        Ok(())
    }

    /// Passes the tokens of a use at a place, or begins to pass them.
    fn pass(
        &mut self,
        macros: &[Macro<'a>],
        one: Use<'a>,
        place: Place,
        behind: usize,
    ) -> Result<(), OutOfMemory>
        requires { IsTrue (is_below (length macros.now) one) }
        ensures frames { OnOk result (GrowsBy one.entry (frames_of self.old) (frames_of self.new)) }
        ensures seeks { (bodies : List (List Token)) (holds : Bool) (j : ℕ) (w : Skim) → IsTable macros.now bodies → ((state self.old.sieve).unsupported ≡ None → behind ≡ bounded j) → Seeks macros.now bodies place holds self.old (frames_of self.old) j (all_at place (use_tokens bodies one.entry)) w → OnOk result (Seeks macros.now bodies place holds self.new (frames_of self.new) 0 [] w) }
    {
        if self.sieve.unsupported.is_some() {
            return Ok(());
        }
        match one {
            Use::Plain(word) => self.sieve.feed(word.at(place), behind > 0),
            Use::Macro(number, _) => self.enter(macros, number, place, behind),
        }
    }

    /// Ends a macro. Too many passages are want of memory, and too long ones together.
    fn leave(&mut self, frame: &Frame) -> Result<(), OutOfMemory>
        ensures sieve { OnOk result (self.new.sieve ≡ self.old.sieve) }
        ensures frames { OnOk result (self.new.frames ≡ self.old.frames) }
        ensures passages { (bodies : List (List Token)) (holds : Bool) (words : List Token) → OnOk result (All (IsPassage bodies holds words) (values self.old.passages) → IsPassage bodies holds words (left_passage (state self.old.sieve) frame.now) → All (IsPassage bodies holds words) (values self.new.passages)) }
    {
        self.steps = self.steps.saturating_add(frame.next);
        if self.passages.len() >= MAX_PASSAGES || self.steps > MAX_STEPS {
            return Err(OutOfMemory);
        }
        let passage = Passage {
            entry: frame.entry,
            context: self.sieve.context,
            region: self.sieve.region,
            first: frame.count,
            count: self.sieve.count.saturating_sub(frame.count),
        };
        self.passages.insert(frame.entry, passage)?;
        Ok(())
    }

    /// Goes on in a macro.
    fn go_on(&mut self, macros: &[Macro<'a>], frame: Frame, place: Place) -> Result<(), OutOfMemory>
        requires frame { IsFrame macros.now frame }
        requires ordered { IsOrdered macros.now }
        ensures frames { OnOk result (GoesOn macros.now frame (frames_of self.old) (frames_of self.new)) }
        ensures seeks { (bodies : List (List Token)) (holds : Bool) (w : Skim) → IsTable macros.now bodies → Seeks macros.now bodies place holds self.old (frame ∷ frames_of self.old) 0 [] w → OnOk result (Seeks macros.now bodies place holds self.new (frames_of self.new) 0 [] w) }
    {
        if self.sieve.unsupported.is_some() {
            return Ok(());
        }
        let Some(one) = next_use(macros, &frame) else {
            return self.leave(&frame);
        };
        let next = plus(frame.next, 1)?;
        let after = effects_left(macros, frame.entry.number, next);
        let in_extern = self.sieve.context.in_extern;
        let behind = closers_behind(macros, &one, in_extern, &after, frame.entry.behind)?;
        self.frames.push(Frame { next, ..frame })?;
        self.pass(macros, one, place, behind)
    }

    /// Passes what is left of the macros that were begun.
    fn finish(&mut self, macros: &[Macro<'a>], place: Place) -> Result<(), OutOfMemory>
        requires frames { FramesFit macros.now (frames_of self.old) }
        requires ordered { IsOrdered macros.now }
        ensures frames { OnOk result (frames_of self.new ≡ []) }
        ensures seeks { (bodies : List (List Token)) (holds : Bool) (w : Skim) → IsTable macros.now bodies → Seeks macros.now bodies place holds self.old (frames_of self.old) 0 [] w → OnOk result (Seeks macros.now bodies place holds self.new (frames_of self.new) 0 [] w) }
    {
        while let Some(frame) = self.frames.pop() {
            self.go_on(macros, frame, place)?;
        }
        Ok(())
    }
}

/// Passes all tokens of these uses. They are held, or only the first that isn't supported is looked for.
pub fn sift<'a>(
    alloc: Global,
    macros: &[Macro<'a>],
    uses: &[Use<'a>],
    holds: bool,
) -> Result<Sieve<'a>, OutOfMemory>
    requires below { AllBelow (length macros.now) uses.now }
    requires ordered { IsOrdered macros.now }
    ensures { (bodies : List (List Token)) → IsTable macros.now bodies → IfOk result (λ sieve. Sifts holds (all_tokens bodies uses.now) (state sieve)) }
{
    let ends = ends_of(alloc, macros, uses)?;
    let mut search = Search {
        sieve: Sieve::new(alloc, holds),
        passages: HashMap::new(alloc),
        frames: Vec::new(alloc),
        steps: 0,
    };
    for (index, one) in uses.iter().enumerate() {
        let place = place_of(one);
        let after = effects_behind(uses, ends.as_slice(), plus(index, 1)?);
        let in_extern = search.sieve.context.in_extern;
        let behind = closers_behind(macros, one, in_extern, &after, 0)?;
        search.pass(macros, *one, place, behind)?;
        search.finish(macros, place)?;
    }
    Ok(search.sieve)
}
