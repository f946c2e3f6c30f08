//! Lines of metrics.

ghost use Rattle.std.specs.Prelude.{◌≡◌, ◌++◌, ◌≤◌, OnOk, length};
ghost use Rattle.status_page.specs.Samples.{head_text, sample_text, text_if};

use crate::family::{Family, HELP_OCTETS, NAME_OCTETS};
use crate::labels::LABELS_OCTETS;
use arrayvec::ArrayString;
use bytes::BufMut;
use http_server::Rope;
use itoa::Buffer;
use std::alloc::AllocError;

/// Octets of the two lines of a head, at most.
const HEAD_OCTETS: usize = 256;

/// Octets of the line of a sample, at most.
const SAMPLE_OCTETS: usize = 216;

/// Appends the HELP and the TYPE line of a family.
pub(crate) fn put_head(family: Family, body: &mut Rope) -> Result<(), AllocError>
    ensures { OnOk result (body.new.items ≡ body.old.items ++ head_text family) }
{
    let mut head = ArrayString::<HEAD_OCTETS>::new();
    write_head(family, &mut head);
    body.put_slice(head.as_bytes())
}

/// Writes the HELP and the TYPE line of a family.
fn write_head(family: Family, out: &mut ArrayString<HEAD_OCTETS>)
    ensures { out.new.bytes ≡ head_text family }
{
    out.clear();
    out.push_str("# HELP ");
    out.push_str(family.name());
    out.push_str(" ");
    out.push_str(family.help());
    out.push_str("\n# TYPE ");
    out.push_str(family.name());
    out.push_str(" ");
    out.push_str(family.kind().name());
    out.push_str("\n");
}

/// Appends the line of a sample.
pub(crate) fn put_sample(
    family: Family,
    labels: &str,
    value: u64,
    body: &mut Rope,
) -> Result<(), AllocError>
    requires { length labels.now ≤ LABELS_OCTETS }
    ensures { OnOk result (body.new.items ≡ body.old.items ++ sample_text family labels.now value) }
{
    let mut line = ArrayString::<SAMPLE_OCTETS>::new();
    write_sample(family, labels, value, &mut line);
    body.put_slice(line.as_bytes())
}

/// Appends the line of a sample, if there is a value.
pub(crate) fn put_if(
    value: Option<u64>,
    family: Family,
    labels: &str,
    body: &mut Rope,
) -> Result<(), AllocError>
    requires { length labels.now ≤ LABELS_OCTETS }
    ensures { OnOk result (body.new.items ≡ body.old.items ++ text_if value family labels.now) }
{
    match value {
        Some(value) => put_sample(family, labels, value, body),
        None => Ok(()),
    }
}

/// Writes the line of a sample.
fn write_sample(family: Family, labels: &str, value: u64, out: &mut ArrayString<SAMPLE_OCTETS>)
    requires { length labels.now ≤ LABELS_OCTETS }
    ensures { out.new.bytes ≡ sample_text family labels.now value }
{
    let mut digits = Buffer::new();
    out.clear();
    out.push_str(family.name());
    out.push_str(labels);
    out.push_str(" ");
    out.push_str(digits.format(value));
    out.push_str(family.exponent());
    out.push_str("\n");
}
