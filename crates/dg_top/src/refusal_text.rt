// The text of a refusal.
ghost use Rattle.std.specs.Prelude.{◌≡◌, ◌++◌, OnOk, codes, decimal};
ghost use Rattle.dg_top.specs.RefusalText.{kind_text, place_text, refusal_text};

use crate::text::put_place;
use dg_base::{LimitKind, OutOfMemory, Place, Refusal};
use line_text::{put, put_number};

// Appends the name of the refusal and its place.
fn put_placed(out: &mut Vec<u8>, name: &[u8], place: Place) -> Result<(), OutOfMemory>
    ensures { OnOk result (out.new.items ≡ out.old.items ++ (name.now ++ place_text place)) }
{
    put(out, name)?;
    put_place(out, place)
}

fn put_unsupported(out: &mut Vec<u8>, place: Place, word: &[u8]) -> Result<(), OutOfMemory>
    ensures { OnOk result (out.new.items ≡ out.old.items ++ (codes "E2 Unsupported " ++ place_text place ++ codes " " ++ word.now)) }
{
    put_placed(out, b"E2 Unsupported ", place)?;
    put(out, b" ")?;
    put(out, word)
}

fn kind_name(kind: LimitKind) -> &'static [u8]
    ensures { result.now ≡ kind_text kind }
{
    match kind {
        LimitKind::Text => b"text",
        LimitKind::Macro => b"macro",
        LimitKind::Tokens => b"tokens",
        LimitKind::Cells => b"cells",
        LimitKind::Globals => b"globals",
        LimitKind::Creates => b"creates",
        LimitKind::Threads => b"threads",
        LimitKind::Depth => b"depth",
        LimitKind::Accesses => b"accesses",
        LimitKind::Weight => b"weight",
    }
}

fn put_limit(out: &mut Vec<u8>, kind: LimitKind, count: u32) -> Result<(), OutOfMemory>
    ensures { OnOk result (out.new.items ≡ out.old.items ++ (codes "E10 Limit " ++ kind_text kind ++ codes " " ++ decimal count)) }
{
    put(out, b"E10 Limit ")?;
    put(out, kind_name(kind))?;
    put(out, b" ")?;
    put_number(out, count)
}

/// Appends the refusal, and for want of memory nothing.
pub fn put_refusal(out: &mut Vec<u8>, refusal: &Refusal) -> Result<(), OutOfMemory>
    ensures { OnOk result (out.new.items ≡ out.old.items ++ refusal_text refusal.now) }
{
    match refusal {
        Refusal::BadByte(place) => put_placed(out, b"E1 BadByte ", *place),
        Refusal::Unsupported(place, word) => put_unsupported(out, *place, word.as_slice()),
        Refusal::Syntax(place) => put_placed(out, b"E3 Syntax ", *place),
        Refusal::NoMain => put(out, b"E4 NoMain"),
        Refusal::Duplicate(place) => put_placed(out, b"E5 Duplicate ", *place),
        Refusal::Unknown(place) => put_placed(out, b"E6 Unknown ", *place),
        Refusal::BadType(place) => put_placed(out, b"E7 Type ", *place),
        Refusal::UnmatchedAtomic(place) => put_placed(out, b"E8 UnmatchedAtomic ", *place),
        Refusal::Recursion(place) => put_placed(out, b"E9 Recursion ", *place),
        Refusal::Limit(kind, count) => put_limit(out, *kind, *count),
        Refusal::OutOfMemory => Ok(()),
    }
}
