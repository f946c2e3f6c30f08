//! The names by which a page is asked for.

ghost use Rattle.std.specs.Prelude.{◌≡◌, IfOk};
ghost use Rattle.status_page.specs.Names.{names_of, is_own};

use std::alloc::{AllocError, Global};
use std::marker::Model;
use std::net::SocketAddr;

/// The names by which a page is asked for: its address, and `localhost` at its port. A page of another site that a
/// browser was led to has a name of its own, and can read nothing here by it.
#[derive(Drop)]
pub struct PageNames {
    address: String,
    local: String,
    is_open: bool,
}

impl Model for PageNames {
    ghost use Rattle.status_page.specs.Names.{Names};

    ghost Value = { Names };

    ghost use Rattle.status_page.specs.NamesInside.{names_in};

    ghost view = { names_in };
}

impl PageNames {
    /// Those of a page at this address. If it is open it may be asked for by any name. The error means that memory ran
    /// out.
    pub fn new(alloc: Global, address: SocketAddr, is_open: bool) -> Result<PageNames, AllocError>
        ensures { IfOk result (λ names. names ≡ names_of address is_open) }
    {
        let port = address.port();
        Ok(PageNames {
            address: address.to_string(alloc)?,
            local: format!(in alloc; "localhost:{port}")?,
            is_open,
        })
    }

    /// Whether the page may be asked for by this name, the value of a Host field.
    pub fn is_own(&self, host: &[u8]) -> bool
        ensures { result ≡ is_own self.now host.now }
    {
        self.is_open || host == self.address.as_bytes() || host == self.local.as_bytes()
    }
}
