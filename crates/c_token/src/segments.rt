// A text as the list of its pieces.
ghost use Rattle.std.specs.Prelude.{◌≡◌, ◌+◌, ◌<◌, ◌≤◌, ◌^◌, length, map};
ghost use Rattle.c_token.specs.Pieces.{behind, all_segments};
ghost use Rattle.c_token.specs.Seen.{GivesSegments};

use crate::pieces::{Mode, Piece, front_piece, mode_after};
use dg_base::{List, Place};
use std::alloc::{AllocError, Global};

/// A piece with its place and its bytes.
#[derive(Debug, Clone, Copy, Drop)]
pub struct Part<'a> {
    pub piece: Piece,
    pub place: Place,
    pub text: &'a [u8],
}

/// Why a text has no list of pieces.
#[derive(Debug, Clone, Copy, PartialEq, Eq, Drop)]
pub enum Stuck {
    /// No piece begins here.
    BadByte(Place),
    OutOfMemory,
}

impl From<AllocError> for Stuck {
    ghost use Rattle.std.specs.Prelude.{◌≡◌};
    ghost use Rattle.c_token.specs.declared.segments.Stuck.TheVariants.{OutOfMemory};

    ghost from_gives = { λ _ stuck. stuck ≡ OutOfMemory };

    fn from(_: AllocError) -> Self {
        Stuck::OutOfMemory
    }
}

/// The place behind a text that begins at this place.
pub fn behind(place: Place, text: &[u8]) -> Place
    requires line { place.line + length text.now < 2 ^ 32 }
    requires col { place.col + length text.now < 2 ^ 32 }
    ensures { result ≡ behind place text.now }
{
    let mut here = place;
    for b in text {
        if *b == b'\n' {
            here = Place {
                line: here.line + 1,
                col: 1,
            };
        } else {
            here.col += 1;
        }
    }
    here
}

/// The pieces of a text.
pub fn segments(alloc: Global, text: &[u8]) -> Result<List<Part<'_>>, Stuck>
    requires { length text.now ≤ 1048576 }
    ensures { GivesSegments result (all_segments text.now) }
{
    let mut parts = List::new(alloc);
    let mut mode = Mode::LineStart;
    let mut place = Place { line: 1, col: 1 };
    let mut rest = text;
    while !rest.is_empty() {
        let Some(found) = front_piece(mode, rest) else {
            return Err(Stuck::BadByte(place));
        };
        let (text, after) = rest.split_at(found.len);
        let piece = found.piece;
        parts.push(Part { piece, place, text })?;
        mode = mode_after(mode, piece, text);
        place = behind(place, text);
        rest = after;
    }
    Ok(parts)
}
