//! The keys of the files that a capture goes into, if they are a ring.

ghost use Rattle.std.specs.Prelude.{◌≡◌, ◌≤◌, IfSome};
ghost use Rattle.std.specs.Option.{option_map};
ghost use Rattle.toml.specs.View.{view, table_view};
ghost use Rattle.settings_file.specs.CaptureKeys.{unit_octets, octets_in, size_of, size_in, files_in, limits_in, limits_at};

use crate::durations::{digit_count, number_in};
use crate::serve::fault::ServeFault;
use crate::serve::key::ServeKey;
use crate::serve::keys::found_at;
use crate::shapes::{integer_in, text_in};
use toml::{Table, Value};

const KILOBYTE: u64 = 1_000;

const MEGABYTE: u64 = 1_000 * KILOBYTE;

const GIGABYTE: u64 = 1_000 * MEGABYTE;

/// The least that the octets of a file of a ring may be limited to.
const LEAST_SIZE: u64 = 2 * MEGABYTE;

/// The most.
const MOST_SIZE: u64 = 1_000 * GIGABYTE;

const LEAST_FILES: u32 = 2;

const MOST_FILES: u32 = 1_000;

/// The limits of a ring of files that a capture goes into.
#[derive(Clone, Copy)]
pub struct CaptureLimits {
    /// How many octets a file has, at most: 2,000,000 to 1,000,000,000,000.
    pub size: u64,
    /// How many files there are, at most: 2 to 1,000.
    pub files: u32,
}

/// The limits of the ring of files of this capture, if it goes into one, in the table of a file that is of version 4 or
/// isn't.
#[tactic(auto, unfolding(crate::specs::CaptureKeys::limits_at))]
pub(crate) fn capture_limits(
    serve: &Table,
    is_fourth: bool,
    capture: Option<&str>,
) -> Result<Option<CaptureLimits>, ServeFault>
    ensures { result ≡ limits_at is_fourth (option_map (λ file. file.now) capture.entry) (table_view serve.now) }
{
    if !is_fourth {
        return Ok(None);
    }
    let size = found_at(serve, ServeKey::CaptureSize);
    let files = found_at(serve, ServeKey::CaptureFiles);
    limits_in(size, files, capture)
}

/// The limits that the values of both keys say, which go together, and with a capture.
fn limits_in(
    size: Option<&Value>,
    files: Option<&Value>,
    capture: Option<&str>,
) -> Result<Option<CaptureLimits>, ServeFault>
    ensures { result ≡ limits_in (option_map (λ value. view value.now) size.entry)
        (option_map (λ value. view value.now) files.entry) (option_map (λ file. file.now) capture.entry) }
{
    let (size, files) = match (size, files) {
        (None, None) => return Ok(None),
        (None, Some(_)) => return Err(ServeFault::Missing(ServeKey::CaptureSize)),
        (Some(_), None) => return Err(ServeFault::Missing(ServeKey::CaptureFiles)),
        (Some(size), Some(files)) => (size_in(size)?, files_in(files)?),
    };
    match capture {
        Some(_) => Ok(Some(CaptureLimits { size, files })),
        None => Err(ServeFault::Missing(ServeKey::Capture)),
    }
}

/// How many octets a file may have.
#[tactic(auto, unfolding(crate::specs::CaptureKeys::size_in))]
pub(crate) fn size_in(value: &Value) -> Result<u64, ServeFault>
    ensures { result ≡ size_in (view value.now) }
{
    match value.as_integer() {
        Some(octets) => size_of(u64::try_from(octets).ok()),
        None => {
            let text = text_in(value, ServeFault::Kind(ServeKey::CaptureSize))?;
            size_of(octets_in(text.as_bytes()))
        }
    }
}

/// A number of octets that is within the limits.
fn size_of(octets: Option<u64>) -> Result<u64, ServeFault>
    ensures { result ≡ size_of octets }
{
    match octets {
        Some(octets) if LEAST_SIZE <= octets && octets <= MOST_SIZE => Ok(octets),
        _ => Err(ServeFault::Range(ServeKey::CaptureSize)),
    }
}

/// How many octets a text says: `100MB`. None for any other text.
fn octets_in(text: &[u8]) -> Option<u64>
    ensures { result ≡ octets_in text.now }
{
    let (digits, unit) = text.split_at(digit_count(text));
    let number = number_in(digits)?;
    let unit = unit_octets(unit)?;
    Some(number * unit)
}

/// How many octets a unit is.
fn unit_octets(unit: &[u8]) -> Option<u64>
    ensures value { result ≡ unit_octets unit.now }
    ensures most { IfSome result (λ octets. octets ≤ 1000000000) }
{
    if unit == b"kB".as_slice() {
        Some(KILOBYTE)
    } else if unit == b"MB".as_slice() {
        Some(MEGABYTE)
    } else if unit == b"GB".as_slice() {
        Some(GIGABYTE)
    } else {
        None
    }
}

/// How many files there may be.
#[tactic(auto, unfolding(crate::specs::CaptureKeys::files_in))]
pub(crate) fn files_in(value: &Value) -> Result<u32, ServeFault>
    ensures { result ≡ files_in (view value.now) }
{
    let files = integer_in(value, ServeFault::Kind(ServeKey::CaptureFiles))?;
    match u32::try_from(files) {
        Ok(files) if LEAST_FILES <= files && files <= MOST_FILES => Ok(files),
        _ => Err(ServeFault::Range(ServeKey::CaptureFiles)),
    }
}
