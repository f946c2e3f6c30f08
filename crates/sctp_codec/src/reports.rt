//! Parameters that are reported, in an INIT ACK or in an ERROR.

ghost use Rattle.std.specs.Prelude.{◌≡◌, ◌+◌, ◌<◌, ◌≤◌, true, false, List, [], ◌∷◌, ◌++◌, length, take, map, replicate};
ghost use Rattle.sctp_codec.specs.Items.{item_octets, padding_behind};
ghost use Rattle.sctp_codec.specs.Packets as value;
ghost use Rattle.sctp_codec.specs.Parameters.{reported_in, report_of, fitting, following};
ghost use Rattle.sctp_codec.specs.Parameters.{complained_of, unrecognized_parameters};
ghost use Rattle.sctp_codec.specs.Writing.{chunk_octets};
ghost use Rattle.sctp_codec.specs.Values.{item_of, items_of};
ghost use Rattle.sctp_codec.specs.Reports.{reports_of};

use crate::item::{Item, numbered, padding_behind};
use crate::items::Items;
use crate::layout::{
    ERROR, ITEM_HEADER_OCTETS, REPORT_OCTETS, UNRECOGNIZED_PARAMETER, UNRECOGNIZED_PARAMETERS,
};
use crate::parameters::{is_last, is_reported};
use crate::writing::{PACKET_OCTETS, PacketBuffer, write_at, write_front, write_item, write_zeros};

/// The parameters that are to be reported, one after another.
#[derive(Clone, Copy)]
pub struct Reports<'a> {
    rest: Items<'a>,
}

impl<'a> Reports<'a> {
    /// Those of these parameters (RFC 9260 §3.2.1).
    pub fn of(parameters: Items<'a>) -> Reports<'a>
        ensures { reports_of result ≡ reported_in (items_of parameters.entry) }
    {
        Reports { rest: parameters }
    }
}

impl<'a> Iterator for Reports<'a> {
    type Item = Item<'a>;

    ghost use Rattle.std.specs.Iterator.{YieldsFirstBy, item_count};

    ghost next_gives = { YieldsFirstBy item_of reports_of };

    ghost remaining = { item_count reports_of };

    fn next(&mut self) -> Option<Item<'a>> {
        'each_parameter: while let Some(item) = self.rest.next() {
            if is_last(item.kind) {
                self.rest = Items::none();
            }
            if is_reported(item.kind) {
                return Some(item);
            }
        }
        None
    }
}

/// Writes an ERROR chunk at an offset, and returns the offset after it: the parameters of an INIT ACK that are to be
/// reported, as many of the first as 512 octets hold (RFC 9260 §3.3.10.8).
pub fn write_unrecognized_parameters(
    out: &mut PacketBuffer,
    at: usize,
    parameters: Items<'_>,
) -> usize
    requires { at + 520 ≤ 1200 }
    ensures room { result ≤ at + 520 }
    ensures count { result ≡ at + length (chunk_octets (value.ErrorChunk
        (unrecognized_parameters (complained_of (items_of parameters.entry)) ∷ []))) }
    ensures text { take result out.new ≡ take at out.old ++ chunk_octets (value.ErrorChunk
        (unrecognized_parameters (complained_of (items_of parameters.entry)) ∷ [])) }
{
    let mut reports: PacketBuffer = [0; PACKET_OCTETS];
    let end = write_reports(&mut reports, 0, 0, Reports::of(parameters), false);
    let at = write_front(out, at, numbered(ERROR, 0), ITEM_HEADER_OCTETS + end);
    write_item(out, at, UNRECOGNIZED_PARAMETERS, &reports[..end])
}

/// Writes reported parameters at an offset, each after the padding of the one before, as many of the first as there is
/// room for, and returns the offset after them.
pub(crate) fn write_reports(
    out: &mut PacketBuffer,
    at: usize,
    padding: usize,
    reports: Reports<'_>,
    is_wrapped: bool,
) -> usize
    requires few { padding < 4 }
    requires space { at + padding + 512 ≤ 1200 }
    ensures room { result ≤ at + padding + 512 }
    ensures count { result
        ≡ at + length (following padding (fitting 512 (map (report_of is_wrapped) (reports_of reports.entry)))) }
    ensures text { take result out.new
        ≡ take at out.old ++ following padding (fitting 512 (map (report_of is_wrapped) (reports_of reports.entry))) }
{
    let mut end = at;
    let mut padding = padding;
    let mut room = REPORT_OCTETS;
    'each_report: for item in reports {
        let octets = octets_of_report(&item, is_wrapped);
        let next_padding = padding_behind(octets);
        if room < octets + next_padding {
            return end;
        }
        room -= octets + next_padding;
        end = write_zeros(out, end, padding);
        end = write_report(out, end, &item, is_wrapped);
        padding = next_padding;
    }
    end
}

/// How many octets a parameter has if it is reported, without padding.
fn octets_of_report(item: &Item<'_>, is_wrapped: bool) -> usize
    ensures { result ≡ length (item_octets (report_of is_wrapped (item_of item.now))) }
{
    let headers = if is_wrapped { 2 } else { 1 };
    headers * ITEM_HEADER_OCTETS + item.value.len()
}

/// Writes a parameter as it is reported at an offset, without padding, and returns the offset after it.
fn write_report(out: &mut PacketBuffer, at: usize, item: &Item<'_>, is_wrapped: bool) -> usize
    requires { at + length (item_octets (report_of is_wrapped (item_of item.now))) ≤ 1200 }
    ensures count { result ≡ at + length (item_octets (report_of is_wrapped (item_of item.now))) }
    ensures text { take result out.new ≡ take at out.old ++ item_octets (report_of is_wrapped (item_of item.now)) }
{
    let octets = item.value.len();
    let at = if is_wrapped {
        write_front(out, at, UNRECOGNIZED_PARAMETER, ITEM_HEADER_OCTETS + octets)
    } else {
        at
    };
    let at = write_front(out, at, item.kind, octets);
    write_at(out, at, item.value)
}
