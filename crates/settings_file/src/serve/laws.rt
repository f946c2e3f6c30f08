//! A law of the settings of a server, for a caller's proof. The call does nothing.

ghost use Rattle.settings_file.specs.Addresses.{Spelling};

/// The law that there is a function that tells what address a text spells, as the contract of
/// `read` takes it.
pub fn addresses_are_told()
    ensures { Spelling }
{}
