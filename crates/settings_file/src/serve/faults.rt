//! All faults of a server's settings, in a document of version 4.

ghost use Rattle.std.specs.Prelude.{◌≡◌, IfOk, Ok};
ghost use Rattle.toml.specs.View.{table_view};
ghost use Rattle.settings_file.specs.Addresses.{Spelling};
ghost use Rattle.settings_file.specs.AllServeFaults.{serve_faults, server_faults};

mod links;
mod table;
mod times;

use crate::faults::alone;
use crate::serve::fault::ServeFault;
use crate::serve::faults::links::note_links;
use crate::serve::faults::table::{note_table, own_read};
use crate::serve::key::ServeKey;
use crate::serve::keys::found_at;
use crate::shapes::table_in;
use std::alloc::{AllocError, Global};
use toml::Table;

/// All faults of the settings of a server, the keys in the order in which `read_server` reads them. A document without
/// `serve` has none. `AllocError` if memory ran out.
#[tactic(auto, unfolding(crate::specs::AllServeFaults::server_faults))]
pub(crate) fn server_faults(alloc: Global, document: &Table) -> Result<Vec<ServeFault>, AllocError>
    ensures { (s : Spelling) → IfOk result (λ faults. faults.items ≡ server_faults s (table_view document.now)) }
{
    let Some(value) = found_at(document, ServeKey::Serve) else {
        return Ok(Vec::new(alloc));
    };
    match table_in(value, ServeFault::Kind(ServeKey::Serve)) {
        Ok(serve) => serve_faults(alloc, document, serve),
        Err(fault) => alone(alloc, fault),
    }
}

/// The faults of the table of a server, and of the links of its document.
fn serve_faults(
    alloc: Global,
    document: &Table,
    serve: &Table,
) -> Result<Vec<ServeFault>, AllocError>
    ensures { (s : Spelling) → IfOk result (λ faults.
        faults.items ≡ serve_faults s (table_view document.now) (Ok (table_view serve.now))) }
{
    let mut faults = Vec::new(alloc);
    note_table(&mut faults, serve)?;
    note_links(alloc, &mut faults, own_read(serve), document)?;
    Ok(faults)
}
