//! Sentences about all faults of a settings file, each with the place of its key.

ghost use Rattle.std.specs.Prelude.{IfOk, IfSome, string_bytes};
ghost use Rattle.settings_file.specs.PlacedSentences.{AreSentences, IsSentence, IsPlaceOfFault, placed};
ghost use Rattle.settings_file.specs.ServeSentences.{Explains};

use crate::known_keys::has_fourth;
use crate::serve::fault::row_of;
use crate::serve::{ServeFault, sentence};
use crate::text_places::{TextPlace, text_place};
use std::alloc::{AllocError, Global};
use toml::Table;

/// The sentences that say what these faults are, in their order, in the document and the text of a settings file of this
/// name, each with a line feed. In a file of version 4 the line and the column of the fault's key are behind the name:
/// `node.toml:14:1: link[2] "e2": slc is 16, must be 0 to 15`. Where the key isn't in the text they are those of the
/// table that it is missing in, if that is there.
///
/// `AllocError` if memory ran out.
pub fn all_sentences(
    alloc: Global,
    file: &str,
    text: &[u8],
    document: &Table,
    faults: &[ServeFault],
) -> Result<String, AllocError>
    ensures { IfOk result (λ sentences. AreSentences file.now text.now faults.now (string_bytes sentences)) }
{
    let mut sentences = String::new(alloc);
    for i in 0..faults.len() {
        let placed = placed_sentence(alloc, file, text, document, faults[i])?;
        sentences.push_str(placed.as_str())?;
    }
    Ok(sentences)
}

/// The sentence that says what this fault is, with the place of its key behind the file's name.
fn placed_sentence(
    alloc: Global,
    file: &str,
    text: &[u8],
    document: &Table,
    fault: ServeFault,
) -> Result<String, AllocError>
    ensures { IfOk result (λ sentence. IsSentence file.now text.now fault (string_bytes sentence)) }
{
    match place_in(text, document, fault) {
        Some(place) => sentence_at(alloc, file, place, document, fault),
        None => sentence(alloc, file, document, fault),
    }
}

/// The sentence that says what this fault is, with this place behind the file's name.
fn sentence_at(
    alloc: Global,
    file: &str,
    place: TextPlace,
    document: &Table,
    fault: ServeFault,
) -> Result<String, AllocError>
    ensures { IfOk result (λ sentence. Explains (placed file.now place) fault (string_bytes sentence)) }
{
    let TextPlace { line, column } = place;
    let placed = format!(in alloc; "{file}:{line}:{column}")?;
    sentence(alloc, placed.as_str(), document, fault)
}

/// The place of the key of this fault in the text of a file, if it is of version 4.
fn place_in(text: &[u8], document: &Table, fault: ServeFault) -> Option<TextPlace>
    ensures { IfSome result (IsPlaceOfFault text.now fault) }
{
    if !has_fourth(document) {
        return None;
    }
    let row = row_of(fault)?;
    text_place(text, &row)
}
