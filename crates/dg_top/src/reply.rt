// The answers as status and text, with the file that is kept; those that every job has.
ghost use Rattle.std.specs.Prelude.{◌≡◌, ◌≢◌, ◌↔◌, None, IfOk, IsTrue};
ghost use Rattle.dg_top.specs.Answers.{BadWords, LongFile, Refused};
ghost use Rattle.dg_top.specs.Replies.{Spells, kept_of};

use crate::refusal_text::put_refusal;
use dg_base::{Bytes, OutOfMemory, Refusal};
use line_text::put;
use std::alloc::Global;
use word_settings::{FileName, WordsFault};

/// A file that is kept.
#[derive(Debug, Drop)]
pub struct Keeping {
    /// Its name.
    pub name: String,
    /// Its bytes.
    pub bytes: Bytes,
}

/// An answer: the status of the process, the bytes that are printed, and the file that is kept before they are.
#[derive(Debug, Drop)]
pub struct Reply {
    pub status: u8,
    pub text: Vec<u8>,
    pub kept: Option<Keeping>,
}

/// The file of this name with these bytes.
pub fn keep_in(alloc: Global, name: &FileName, bytes: Bytes) -> Result<Keeping, OutOfMemory>
    ensures { IfOk result (λ k. kept_of k ≡ record { name = name.now; bytes = bytes }) }
{
    let name = String::from_str(alloc, name.as_str())?;
    Ok(Keeping { name, bytes })
}

fn wrong_words(alloc: Global, fault: WordsFault) -> Result<Reply, OutOfMemory>
    ensures { IfOk result (Spells (BadWords fault) None) }
{
    let mut text = Vec::from_slice(alloc, b"words ")?;
    put(&mut text, fault.name().as_bytes())?;
    put(&mut text, b"\n")?;
    Ok(Reply {
        status: 3,
        text,
        kept: None,
    })
}

// Whether nothing is said of the words, but memory is out.
fn words_lack_memory(fault: WordsFault) -> bool
    ensures { IsTrue result ↔ (fault ≡ WordsFault.OutOfMemory) }
{
    match fault {
        WordsFault::OutOfMemory => true,
        _ => false,
    }
}

/// The words ask for nothing, unless memory is out.
pub fn bad_words(alloc: Global, fault: WordsFault) -> Result<Reply, OutOfMemory>
    ensures { IfOk result (λ r. Spells (BadWords fault) None r × (fault ≢ WordsFault.OutOfMemory)) }
{
    if words_lack_memory(fault) {
        return Err(OutOfMemory);
    }
    wrong_words(alloc, fault)
}

/// The file of this name is too long.
pub fn long_file(alloc: Global, name: &str) -> Result<Reply, OutOfMemory>
    ensures { IfOk result (Spells (LongFile name.now) None) }
{
    let mut text = Vec::from_slice(alloc, b"refused Long ")?;
    put(&mut text, name.as_bytes())?;
    put(&mut text, b"\n")?;
    Ok(Reply {
        status: 4,
        text,
        kept: None,
    })
}

fn refused(alloc: Global, refusal: &Refusal) -> Result<Reply, OutOfMemory>
    ensures { IfOk result (Spells (Refused refusal.now) None) }
{
    let mut text = Vec::from_slice(alloc, b"refused ")?;
    put_refusal(&mut text, refusal)?;
    put(&mut text, b"\n")?;
    Ok(Reply {
        status: 4,
        text,
        kept: None,
    })
}

// Whether the refusal is want of memory.
fn lacks_memory(refusal: &Refusal) -> bool
    ensures { IsTrue result ↔ (refusal.now ≡ Refusal.OutOfMemory) }
{
    match refusal {
        Refusal::OutOfMemory => true,
        _ => false,
    }
}

/// The program's text is refused, unless memory is out.
pub fn refuse(alloc: Global, refusal: &Refusal) -> Result<Reply, OutOfMemory>
    ensures { IfOk result (λ r. Spells (Refused refusal.now) None r × (refusal.now ≢ Refusal.OutOfMemory)) }
{
    if lacks_memory(refusal) {
        return Err(OutOfMemory);
    }
    refused(alloc, refusal)
}
