//! The document that a settings file is, parsed once; or why it is none.

ghost use Rattle.std.specs.Prelude.{◌≡◌, ◌⊎◌, None, Some, IfOk, IfErr, string_bytes};
ghost use Rattle.toml.specs.Parse.{parse_document};
ghost use Rattle.toml.specs.View.{table_view};
ghost use Rattle.settings_file.specs.Faults.{no_memory};
ghost use Rattle.settings_file.specs.Parsed.{AreDocument, AreNoDocument};
ghost use Rattle.settings_file.specs.Sentences.{Names};

use crate::fault::SettingsFault;
use settings::DraftFault;
use std::alloc::{AllocError, Global};
use toml::Table;

/// The document that a text is, or `Text` if it isn't TOML.
pub fn parse(alloc: Global, text: &str) -> Result<Table, SettingsFault>
    ensures document { IfOk result (λ document. parse_document text.now ≡ Some (table_view document)) }
    ensures fault { IfErr result (λ fault. (fault ≡ no_memory)
        ⊎ ((fault ≡ SettingsFault.Text) × (parse_document text.now ≡ None))) }
{
    match toml::table_from_str(alloc, text) {
        Ok(document) => Ok(document),
        Err(error) if error.is_memory() => Err(SettingsFault::Draft(DraftFault::NoMemory)),
        Err(_) => Err(SettingsFault::Text),
    }
}

/// The document in a file of this name and these octets. If they aren't UTF-8 or aren't TOML, the sentence that says
/// so, with a line feed: `node.toml: the file isn't UTF-8`.
///
/// `AllocError` if memory ran out.
pub fn document_in(
    alloc: Global,
    file: &str,
    octets: &[u8],
) -> Result<Result<Table, String>, AllocError>
    ensures document { IfOk result (λ read. IfOk read (λ document.
        AreDocument octets.now (table_view document))) }
    ensures names { IfOk result (λ read. IfErr read (λ why. Names file.now (string_bytes why))) }
    ensures none { IfOk result (λ read. IfErr read (λ _. AreNoDocument octets.now)) }
{
    let Ok(text) = str::from_utf8(octets) else {
        return Ok(Err(format!(in alloc; "{file}: the file isn't UTF-8\n")?));
    };
    match toml::table_from_str(alloc, text) {
        Ok(document) => Ok(Ok(document)),
        Err(error) if error.is_memory() => Err(AllocError),
        Err(error) => {
            let said = format!(in alloc; "{error}")?;
            Ok(Err(format!(in alloc; "{file}: {said}")?))
        }
    }
}
