// Tokens from words with blanks between them.
use c_token::{Token, TokenKind, Tokens};
use dg_base::{Bytes, List, Place};
use std::alloc::{AllocError, Global};

fn kind(text: &[u8]) -> TokenKind {
    match text {
        [b'0'..=b'9', ..] => TokenKind::Number,
        [b'a'..=b'z', ..] | [b'A'..=b'Z', ..] | [b'_', ..] => TokenKind::Name,
        [b'"', ..] => TokenKind::Text,
        _ => TokenKind::Mark,
    }
}

// The words of a text, each as a token on line 1, in the column of its number.
fn push_words(alloc: Global, list: &mut List<Token>, text: &str) -> Result<(), AllocError> {
    for word in text.as_bytes().split(|byte| *byte == b' ') {
        if !word.is_empty() {
            let col = u32::try_from(list.len()).unwrap_or(0).saturating_add(1);
            list.push(Token {
                kind: kind(word),
                place: Place { line: 1, col },
                text: Bytes::from_slice(alloc, word)?,
            })?;
        }
    }
    Ok(())
}

// The words of the texts, each text so many times.
pub fn tokens(alloc: Global, parts: &[(&str, u32)]) -> Result<Tokens, AllocError> {
    let mut list = List::new(alloc);
    for (text, times) in parts {
        for _ in 0..*times {
            push_words(alloc, &mut list, text)?;
        }
    }
    Ok(Tokens {
        list,
        end: Place { line: 2, col: 1 },
    })
}
