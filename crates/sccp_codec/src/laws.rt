//! Laws of unitdata and management, for whoever reads and writes them. Each function states its law in its contract,
//! and does nothing.

ghost use Rattle.std.specs.Prelude.{◌≡◌, ℕ, ◌↔◌, ◌<◌, ◌^◌, List, Ok};
ghost use Rattle.sccp_codec.specs.Extended.{ExtendedValue, IsExtended, IsExtendedValue, extended_octets, read_extended};
ghost use Rattle.sccp_codec.specs.Management.{ManagementValue, IsManagement, management_octets, read_management};
ghost use Rattle.sccp_codec.specs.Messages.{AddressValue, IsAddress, IsAddressValue, AreOctets, address_octets, UnitdataValue, IsUnitdata, IsUnitdataValue, spelled, read_address, read_unitdata};
ghost use Rattle.sccp_codec.specs.Titles.{IsTitle, ReadsAsTitle, title_octets};
ghost use Rattle.sccp_codec.specs.declared.title.TitleKey.{TitleKey};

/// Octets are an address that says something exactly when reading them gives it.
pub fn addresses_are_what_is_read()
    ensures { (octets : List ℕ) (a : AddressValue) → AreOctets octets
        → IsAddress octets a ↔ (read_address octets ≡ Ok a) }
{}

/// Octets are a message that says something exactly when reading them gives it.
pub fn messages_are_what_is_read()
    ensures { (text : List ℕ) (v : UnitdataValue) → AreOctets text
        → IsUnitdata text v ↔ (read_unitdata text ≡ Ok v) }
{}

/// Octets say one message at most.
pub fn one_value()
    ensures { (text : List ℕ) (v w : UnitdataValue) → IsUnitdata text v → IsUnitdata text w → v ≡ w }
{}

/// What is written for a message says it, and reads back as it; so does each address.
pub fn what_is_written_reads_back()
    ensures message { (v : UnitdataValue) → IsUnitdataValue v → IsUnitdata (spelled v) v }
    ensures back { (v : UnitdataValue) → IsUnitdataValue v → read_unitdata (spelled v) ≡ Ok v }
    ensures address { (a : AddressValue) → IsAddressValue a → IsAddress (address_octets 0 a) a }
{}

/// What is written for a title reads back as it.
pub fn what_is_written_of_a_title_reads_back()
    ensures { (key : TitleKey) (digits : List ℕ) → IsTitle key digits
        → ReadsAsTitle (title_octets key digits) key digits }
{}

/// Octets are an extended message that says something exactly if reading them gives it.
pub fn extended_messages_are_what_is_read()
    ensures { (text : List ℕ) (v : ExtendedValue) → AreOctets text
        → IsExtended text v ↔ (read_extended text ≡ Ok v) }
{}

/// Octets say one extended message at most.
pub fn one_extended_value()
    ensures { (text : List ℕ) (v w : ExtendedValue) → IsExtended text v → IsExtended text w → v ≡ w }
{}

/// What is written for an extended message says it, and reads back as it.
pub fn what_is_written_extended_reads_back()
    ensures message { (v : ExtendedValue) → IsExtendedValue v → IsExtended (extended_octets v) v }
    ensures back { (v : ExtendedValue) → IsExtendedValue v → read_extended (extended_octets v) ≡ Ok v }
{}

/// Octets are a management message that says something exactly if reading them gives it.
pub fn management_is_what_is_read()
    ensures { (text : List ℕ) (v : ManagementValue) → AreOctets text
        → IsManagement text v ↔ (read_management text ≡ Ok v) }
{}

/// Octets say one management message at most.
pub fn one_management_value()
    ensures { (text : List ℕ) (v w : ManagementValue) → IsManagement text v → IsManagement text w → v ≡ w }
{}

/// What is written for a management message says it, and reads back as it.
pub fn what_is_written_in_management_reads_back()
    ensures message { (v : ManagementValue) → v.point < 2 ^ 14 → IsManagement (management_octets 0 v) v }
    ensures back { (v : ManagementValue) → v.point < 2 ^ 14 → read_management (management_octets 0 v) ≡ Ok v }
{}
