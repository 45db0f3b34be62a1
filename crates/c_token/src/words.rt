// Tokens that borrow the text, and the words that have a meaning of their own.
ghost use Rattle.std.specs.Prelude.{◌≡◌, ◌&&◌, bytes_eq, IfOk};
ghost use Rattle.std.specs.List.{list_any};
ghost use Rattle.c_token.specs.Dropping.{says, is_dropped, is_named};
ghost use Rattle.c_token.specs.Macros.{is_name, put_at};
ghost use Rattle.c_token.specs.Seen.{token};
ghost use Rattle.c_token.specs.Skimming.{class_of};
ghost use Rattle.c_token.specs.Tokens.{is_unsupported_name, is_unsupported_number, is_unsupported, is_text_word, meant, shown};

use crate::bytes::{is_space, starts};
use crate::skim::Class;
use crate::{Token, TokenKind};
use dg_base::{Bytes, OutOfMemory, Place};
use std::alloc::Global;
use token_list::is_supported_number;

const DROPPED: [&str; 10] = [
    "volatile",
    "const",
    "restrict",
    "inline",
    "register",
    "auto",
    "__extension__",
    "__inline",
    "__restrict",
    "__const",
];

const UNSUPPORTED: [&str; 22] = [
    "struct",
    "union",
    "enum",
    "typedef",
    "float",
    "double",
    "char",
    "short",
    "long",
    "switch",
    "case",
    "default",
    "goto",
    "sizeof",
    "asm",
    "_Atomic",
    "_Bool",
    "_Thread_local",
    "pthread_cond_t",
    "pthread_rwlock_t",
    "pthread_barrier_t",
    "sem_t",
];

const TEXTS: [&str; 4] = [
    "__FILE__",
    "__func__",
    "__FUNCTION__",
    "__PRETTY_FUNCTION__",
];

/// A token that borrows its text.
#[derive(Debug, Clone, Copy, Drop)]
pub struct Word<'a> {
    pub kind: TokenKind,
    pub place: Place,
    pub text: &'a [u8],
}

fn owned(alloc: Global, kind: TokenKind, place: Place, text: &[u8]) -> Result<Token, OutOfMemory>
    ensures { IfOk result (λ t. t ≡ record { kind = kind; place = place; text = text.now }) }
{
    let text = Bytes::from_slice(alloc, text)?;
    Ok(Token { kind, place, text })
}

fn is_one_of(text: &[u8], words: &[&str]) -> bool
    ensures { result ≡ list_any (λ w. bytes_eq text.now w.now) words.now }
{
    words.iter().any(|word| text == word.as_bytes())
}

impl<'a> Word<'a> {
    /// The same token at another place.
    pub fn at(&self, place: Place) -> Word<'a>
        ensures { token result ≡ put_at place (token self.now) }
    {
        Word {
            kind: self.kind,
            place,
            text: self.text,
        }
    }

    pub fn is_name(&self) -> bool
        ensures { result ≡ is_name self.now.kind }
    {
        self.kind == TokenKind::Name
    }

    /// Whether the token is a name, a number or a mark of this text.
    pub fn says(&self, text: &[u8]) -> bool
        ensures { result ≡ says text.now (token self.now) }
    {
        self.kind != TokenKind::Text && self.text == text
    }

    /// What the token is where tokens are left out.
    #[tactic(auto, unfolding(crate::specs::Skimming::class_of))]
    pub fn class(&self) -> Class
        ensures { result ≡ class_of (token self.now) }
    {
        if self.says(b"(") {
            Class::Open
        } else if self.says(b")") {
            Class::Close
        } else if self.says(b"extern") {
            Class::Extern
        } else if self.says(b";") {
            Class::Semicolon
        } else if self.says(b"main") {
            Class::Main
        } else if self.says(b"__attribute__") {
            Class::Attribute
        } else {
            Class::Plain
        }
    }

    fn is_among(&self, words: &[&str]) -> bool
        ensures { result ≡ (is_name self.now.kind && list_any (λ w. bytes_eq self.now.text.now w.now) words.now) }
    {
        self.kind == TokenKind::Name && is_one_of(self.text, words)
    }

    /// Whether the token is one that says nothing here.
    #[tactic(auto, unfolding(crate::specs::Dropping::is_dropped))]
    pub fn is_dropped(&self) -> bool
        ensures { result ≡ is_dropped (token self.now) }
    {
        self.is_among(&DROPPED)
    }

    #[tactic(auto, unfolding(crate::specs::Tokens::is_unsupported_name))]
    fn is_unsupported_name(&self) -> bool
        ensures { result ≡ is_unsupported_name (token self.now) }
    {
        self.is_among(&UNSUPPORTED)
    }

    fn is_unsupported_number(&self) -> bool
        ensures { result ≡ is_unsupported_number (token self.now) }
    {
        self.kind == TokenKind::Number && !is_supported_number(self.text)
    }

    /// Whether the token isn't supported.
    #[tactic(auto, unfolding(crate::specs::Tokens::is_unsupported))]
    pub fn is_unsupported(&self) -> bool
        ensures { result ≡ is_unsupported (token self.now) }
    {
        self.is_unsupported_name() || self.is_unsupported_number() || starts(b'#', self.text)
    }

    #[tactic(auto, unfolding(crate::specs::Tokens::is_text_word))]
    fn is_text_word(&self) -> bool
        ensures { result ≡ is_text_word (token self.now) }
    {
        self.is_among(&TEXTS)
    }

    fn is_named(&self, name: &[u8]) -> bool
        ensures { result ≡ is_named name.now (token self.now) }
    {
        self.kind == TokenKind::Name && self.text == name
    }

    /// The token that this one stands for.
    #[tactic(auto, unfolding(crate::specs::Tokens::meant))]
    pub fn meant(&self, alloc: Global) -> Result<Token, OutOfMemory>
        ensures { IfOk result (λ t. t ≡ meant (token self.now)) }
    {
        let place = self.place;
        if self.is_text_word() {
            return owned(alloc, TokenKind::Text, place, b"\"\"");
        }
        if self.is_named(b"__LINE__") {
            let line = place.line.to_string(alloc)?;
            return owned(alloc, TokenKind::Number, place, line.as_bytes());
        }
        if self.is_named(b"NULL") {
            return owned(alloc, TokenKind::Number, place, b"0");
        }
        owned(alloc, self.kind, place, self.text)
    }

    /// The token's text without spaces and tabs.
    pub fn shown(&self, alloc: Global) -> Result<Bytes, OutOfMemory>
        ensures { IfOk result (λ s. s ≡ shown self.now.text.now) }
    {
        let mut shown = Bytes::new(alloc);
        for b in self.text {
            if !is_space(*b) {
                shown.push(*b)?;
            }
        }
        Ok(shown)
    }
}
