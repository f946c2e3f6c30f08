//! A law of the checksum. The function says it by its contract, and does nothing.

ghost use Rattle.std.specs.Prelude.{◌≡◌, [], ◌∷◌};
ghost use Rattle.crc32c.specs.Division.{crc32c_of};

/// The nine digits "123456789" have the checksum E3069283, by which implementations are known to be right.
pub fn check_value()
    ensures { crc32c_of (0x31 ∷ 0x32 ∷ 0x33 ∷ 0x34 ∷ 0x35 ∷ 0x36 ∷ 0x37 ∷ 0x38 ∷ 0x39 ∷ []) ≡ 0xE3069283 }
{}
