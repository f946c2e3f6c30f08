//! The word that another one is nearest to.

ghost use Rattle.std.specs.Prelude.{◌≡◌, IfOk};
ghost use Rattle.std.specs.List.{list_all};
ghost use Rattle.std.specs.Char.{is_ascii_graphic};
ghost use Rattle.std.specs.Prelude.{None, ◌+◌, ◌/◌, max, length};
ghost use Rattle.console.specs.ClientWords.{edits, is_shown, nearest, nearest_from};

use crate::client_words::ClientWord;
use std::alloc::{AllocError, Global};
use strsim::osa_distance;

/// Octets of a word that a line shows, at most.
pub(crate) const SHOWN_OCTETS: usize = 32;

/// A word is near another one if it takes at most one edit for every this many octets of that; one edit is always near.
pub(crate) const OCTETS_PER_EDIT: usize = 3;

/// Whether a line shows this word: it is short, and a terminal prints it.
pub(crate) fn is_shown(word: &[u8]) -> bool
    ensures { result ≡ is_shown word.now }
{
    word.len() <= SHOWN_OCTETS && is_graphic(word)
}

fn is_graphic(word: &[u8]) -> bool
    ensures { result ≡ list_all is_ascii_graphic word.now }
{
    for octet in word {
        if !octet.is_ascii_graphic() {
            return false;
        }
    }
    true
}

/// The word among these that a word is nearest to, if one is near. `AllocError` if memory ran out.
pub(crate) fn nearest(
    alloc: Global,
    word: &[u8],
    known: &[ClientWord],
) -> Result<Option<ClientWord>, AllocError>
    ensures { IfOk result (λ near. near ≡ nearest word.now known.now) }
{
    if !is_shown(word) {
        return Ok(None);
    }
    match str::from_utf8(word) {
        Ok(text) => nearest_to(alloc, text, known),
        Err(_) => Ok(None),
    }
}

/// The word among these that a text is nearest to, if one is near.
#[tactic(auto, unfolding(crate::specs::ClientWords::nearest_from))]
fn nearest_to(
    alloc: Global,
    text: &str,
    known: &[ClientWord],
) -> Result<Option<ClientWord>, AllocError>
    ensures { IfOk result (λ near. near ≡ nearest_from text.now known.now None (1 + max (length text.now / 3) 1)) }
{
    let mut nearest = None;
    let mut too_many = 1 + (text.len() / OCTETS_PER_EDIT).max(1);
    for candidate in known {
        let edits = edits(alloc, text, candidate.word())?;
        if edits < too_many {
            too_many = edits;
            nearest = Some(*candidate);
        }
    }
    Ok(nearest)
}

/// How many edits lead from one text to another.
#[tactic(auto, unfolding(crate::specs::ClientWords::edits))]
pub(crate) fn edits(alloc: Global, from: &str, to: &str) -> Result<usize, AllocError>
    ensures { IfOk result (λ count. count ≡ edits from.now to.now) }
{
    osa_distance(alloc, from, to)
}
