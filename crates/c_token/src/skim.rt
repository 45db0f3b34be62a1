// Which tokens are kept, by one pass that knows of each bracket behind `__attribute__` whether it is closed.
ghost use Rattle.std.specs.Prelude.{◌≡◌, ℕ, ◌+◌, ◌-◌, [], ◌∷◌, min, IfOk, unwrap_or};
ghost use Rattle.token_list.specs.declared.Token.{Token};
ghost use Rattle.c_token.specs.Skimming.{bounded, bracket, open_more, extern_after, last_after, context_after, judged_open, judged_live, judged_dead, judged, effect, effects, effect_in, class_of, Joins};

use dg_base::OutOfMemory;

/// What a token is here.
#[derive(Debug, Clone, Copy, PartialEq, Eq, Drop)]
pub enum Class {
    Extern,
    Semicolon,
    Main,
    Attribute,
    Open,
    Close,
    Plain,
}

/// The last token outside ranges of `extern`.
#[derive(Debug, Clone, Copy, PartialEq, Eq, Hash, Drop)]
pub enum Last {
    Main,
    Attribute,
    Other,
}

/// What the tokens so far say of the next one, whatever follows.
#[derive(Debug, Clone, Copy, PartialEq, Eq, Hash, Drop)]
pub struct Context {
    pub in_extern: bool,
    pub last: Last,
}

/// What is left out up to its closing bracket.
#[derive(Debug, Clone, Copy, PartialEq, Eq, Hash, Drop)]
pub enum Kind {
    Parameters,
    Group,
}

/// Whether tokens are kept, or left out, with so many brackets open beside the first.
#[derive(Debug, Clone, Copy, PartialEq, Eq, Hash, Drop)]
pub enum Region {
    Live,
    Dead(Kind, usize),
}

/// Whether a token is kept, and the region behind it.
#[derive(Debug, Clone, Copy, PartialEq, Eq, Drop)]
pub struct Judgement {
    pub keeps: bool,
    pub region: Region,
}

/// What tokens do to what stands around them. Numbers beyond 2^64 - 1 are given as that.
#[derive(Debug, Clone, Copy, PartialEq, Eq, Drop)]
pub struct Effect {
    /// How many brackets they close that they don't open.
    pub closers: usize,
    /// How many brackets they open that they don't close.
    pub openers: usize,
    /// Whether a range of `extern` is open behind them.
    pub in_extern: bool,
    /// The last of them outside such ranges.
    pub last: Option<Last>,
}

/// The effect of tokens that stand outside ranges of `extern`, and of the same tokens in one.
#[derive(Debug, Clone, Copy, PartialEq, Eq, Drop)]
pub struct Effects {
    pub outside: Effect,
    pub inside: Effect,
}

/// A sum that is too large for its type is want of memory.
pub fn plus(a: usize, b: usize) -> Result<usize, OutOfMemory>
    ensures { IfOk result (λ n. n ≡ a + b) }
{
    a.checked_add(b).ok_or(OutOfMemory)
}

/// A number that is given up to 2^64 - 1.
pub fn exact(n: usize) -> Result<usize, OutOfMemory>
    ensures same { IfOk result (λ m. m ≡ n) }
    ensures exact { IfOk result (λ m. (x : ℕ) → n ≡ bounded x → m ≡ x) }
{
    if n == usize::MAX {
        Err(OutOfMemory)
    } else {
        Ok(n)
    }
}

/// The smaller of two numbers.
pub fn least(a: usize, b: usize) -> usize
    ensures { result ≡ min a b }
{
    a.min(b)
}

/// A difference of numbers that are given up to 2^64 - 1.
fn minus(a: usize, b: usize) -> Result<usize, OutOfMemory>
    ensures { IfOk result (λ n. (x y : ℕ) → a ≡ bounded x → b ≡ bounded y → n ≡ bounded (x - y)) }
{
    if a == usize::MAX && b > 0 {
        return Err(OutOfMemory);
    }
    Ok(a.saturating_sub(b))
}

/// How many brackets close behind tokens with this effect and aren't opened there, where so many do behind what follows.
pub fn ahead(effect: &Effect, behind: usize) -> Result<usize, OutOfMemory>
    ensures { (c o k : ℕ) → effect.now.closers ≡ bounded c → effect.now.openers ≡ bounded o → behind ≡ bounded k → IfOk result (λ n. n ≡ bounded (c + (k - o))) }
{
    let through = minus(behind, effect.openers)?;
    Ok(effect.closers.saturating_add(through))
}

/// The effect of tokens behind others.
pub fn joined(first: &Effect, second: &Effect) -> Result<Effect, OutOfMemory>
    ensures { IfOk result (λ effect. Joins first.now second.now effect) }
{
    let closers = ahead(first, second.closers)?;
    let open = minus(first.openers, second.closers)?;
    Ok(Effect {
        closers,
        openers: second.openers.saturating_add(open),
        in_extern: second.in_extern,
        last: second.last.or(first.last),
    })
}

/// Whether a range of `extern` is open behind a token.
fn extern_after(in_extern: bool, class: Class) -> bool
    ensures { result ≡ extern_after in_extern class }
{
    if in_extern {
        class != Class::Semicolon
    } else {
        class == Class::Extern
    }
}

/// The token as the last one.
fn last_after(in_extern: bool, class: Class) -> Option<Last>
    ensures { result ≡ last_after in_extern class }
{
    if in_extern {
        return None;
    }
    match class {
        Class::Extern => None,
        Class::Main => Some(Last::Main),
        Class::Attribute => Some(Last::Attribute),
        _ => Some(Last::Other),
    }
}

/// What a token says of the next one.
pub fn context_after(context: Context, class: Class) -> Context
    ensures { result ≡ context_after context class }
{
    Context {
        in_extern: extern_after(context.in_extern, class),
        last: last_after(context.in_extern, class).unwrap_or(context.last),
    }
}

fn closers_of(in_extern: bool, class: Class) -> usize
    ensures { result ≡ bracket in_extern class 0 }
{
    if in_extern {
        return 0;
    }
    match class {
        Class::Close => 1,
        _ => 0,
    }
}

fn openers_of(in_extern: bool, class: Class) -> usize
    ensures { result ≡ open_more in_extern class 0 0 }
{
    if in_extern {
        return 0;
    }
    match class {
        Class::Open => 1,
        _ => 0,
    }
}

/// The effect of one token.
fn token_effect(in_extern: bool, class: Class) -> Effect
    ensures { (t : Token) → class ≡ class_of t → result ≡ effect in_extern (t ∷ []) }
{
    Effect {
        closers: closers_of(in_extern, class),
        openers: openers_of(in_extern, class),
        in_extern: extern_after(in_extern, class),
        last: last_after(in_extern, class),
    }
}

/// The effects of one token.
pub fn token_effects(class: Class) -> Effects
    ensures { (t : Token) → class ≡ class_of t → result ≡ effects (t ∷ []) }
{
    Effects {
        outside: token_effect(false, class),
        inside: token_effect(true, class),
    }
}

impl Effects {
    /// The effects of no tokens.
    pub fn nothing() -> Effects
        ensures { result ≡ effects [] }
    {
        let outside = Effect {
            closers: 0,
            openers: 0,
            in_extern: false,
            last: None,
        };
        let inside = Effect {
            in_extern: true,
            ..outside
        };
        Effects { outside, inside }
    }

    /// The effect outside a range of `extern`, or in one.
    pub fn at(&self, in_extern: bool) -> Effect
        ensures { result ≡ effect_in in_extern self.now }
    {
        if in_extern { self.inside } else { self.outside }
    }

    /// The effects of these tokens with others behind them.
    pub fn before(&self, second: &Effects) -> Result<Effects, OutOfMemory>
        ensures { IfOk result (λ r. Joins self.now.outside (effect_in self.now.outside.in_extern second.now) r.outside × Joins self.now.inside (effect_in self.now.inside.in_extern second.now) r.inside) }
    {
        let outside = joined(&self.outside, &second.at(self.outside.in_extern))?;
        let inside = joined(&self.inside, &second.at(self.inside.in_extern))?;
        Ok(Effects { outside, inside })
    }
}

fn judged_open(closed: bool, last: Last) -> Judgement
    ensures { result ≡ judged_open closed last }
{
    match last {
        Last::Main => Judgement {
            keeps: true,
            region: Region::Dead(Kind::Parameters, 0),
        },
        Last::Attribute if closed => Judgement {
            keeps: false,
            region: Region::Dead(Kind::Group, 0),
        },
        _ => Judgement {
            keeps: true,
            region: Region::Live,
        },
    }
}

fn judged_live(closed: bool, last: Last, class: Class) -> Judgement
    ensures { result ≡ judged_live closed last class }
{
    match class {
        Class::Open => judged_open(closed, last),
        Class::Extern | Class::Attribute => Judgement {
            keeps: false,
            region: Region::Live,
        },
        _ => Judgement {
            keeps: true,
            region: Region::Live,
        },
    }
}

fn judged_dead(kind: Kind, depth: usize, class: Class) -> Result<Judgement, OutOfMemory>
    ensures { IfOk result (λ j. j ≡ judged_dead kind depth class) }
{
    let region = match class {
        Class::Open => Region::Dead(kind, plus(depth, 1)?),
        Class::Close if depth == 0 => {
            return Ok(Judgement {
                keeps: kind == Kind::Parameters,
                region: Region::Live,
            });
        }
        Class::Close => Region::Dead(kind, depth - 1),
        _ => Region::Dead(kind, depth),
    };
    Ok(Judgement {
        keeps: false,
        region,
    })
}

/// Whether a token is kept, and the region behind it. The flag says of a bracket that opens here whether it is closed.
pub fn judged(
    context: Context,
    closed: bool,
    region: Region,
    class: Class,
) -> Result<Judgement, OutOfMemory>
    ensures { IfOk result (λ j. j ≡ judged context.in_extern closed context.last region class) }
{
    if context.in_extern {
        return Ok(Judgement {
            keeps: false,
            region,
        });
    }
    match region {
        Region::Live => Ok(judged_live(closed, context.last, class)),
        Region::Dead(kind, depth) => judged_dead(kind, depth, class),
    }
}
