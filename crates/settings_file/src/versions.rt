//! The versions of the format of settings files.

ghost use Rattle.std.specs.Prelude.{◌≡◌};
ghost use Rattle.std.specs.Ordering.{int_eq};
ghost use Rattle.settings_file.specs.Versions.{FIRST_VERSION, is_known_version};
ghost use Rattle.settings_file.specs.Versions.{has_joined, has_extensions, has_additions};

/// The first version, which keeps the limits that it had.
const FIRST_VERSION: i64 = 1;

/// The version that brought combined link sets and larger limits.
const SECOND_VERSION: i64 = 2;

/// The version that brought extended unitdata, tests of subsystems, user parts that are told of, shares of the pool,
/// changed titles, and timers of tests and of emergency proving.
const THIRD_VERSION: i64 = 3;

/// The version that brought orders to change over by any route, bars of T2, durations, usual times of timers, longer
/// names, peers that keep their UDP port, and longer timeouts of SCTP.
const LAST_VERSION: i64 = 4;

/// The version that brought a key: the first, the second, the third or the last.
#[derive(Clone, Copy)]
pub(crate) enum Since {
    /// Version 1.
    First,
    /// Version 2.
    Second,
    /// Version 3.
    Third,
    /// Version 4.
    Fourth,
}

impl Since {
    /// The number of the version.
    pub(crate) fn number(self) -> u8 {
        match self {
            Since::First => 1,
            Since::Second => 2,
            Since::Third => 3,
            Since::Fourth => 4,
        }
    }
}

/// Whether this is the first version.
pub(crate) fn is_first_version(version: i64) -> bool
    ensures { result ≡ int_eq version FIRST_VERSION }
{
    version == FIRST_VERSION
}

/// Whether this is a version of the format.
pub(crate) fn is_known_version(version: i64) -> bool
    ensures { result ≡ is_known_version version }
{
    version == FIRST_VERSION
        || version == SECOND_VERSION
        || version == THIRD_VERSION
        || version == LAST_VERSION
}

/// Whether the destinations of a file of this version may be joined.
pub(crate) fn has_joined(version: i64) -> bool
    ensures { result ≡ has_joined version }
{
    version == SECOND_VERSION || version == THIRD_VERSION || version == LAST_VERSION
}

/// Whether a file of this version has the keys that version 3 brought.
pub(crate) fn has_extensions(version: i64) -> bool
    ensures { result ≡ has_extensions version }
{
    version == THIRD_VERSION || version == LAST_VERSION
}

/// Whether a file of this version has what version 4 brought: its keys, durations, longer names, and usual times of
/// timers.
pub(crate) fn has_additions(version: i64) -> bool
    ensures { result ≡ has_additions version }
{
    version == LAST_VERSION
}
