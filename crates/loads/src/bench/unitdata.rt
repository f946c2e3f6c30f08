//! UDTs whose called address is routed by title.

ghost use Rattle.std.specs.Prelude.{◌≡◌, ◌+◌, ◌/◌, ◌≤◌, length};
ghost use Rattle.sccp_codec.specs.Messages.{address_octets};
ghost use Rattle.sccp_codec.specs.Values.{address_of};

use super::incoming::Incoming;
use crate::draft::{INTERNATIONAL, adjacent, own};
use crate::titles::{NATURE, PLAN, SUBSYSTEM, TRANSLATION, Table};
use mtp3_codec::Label;
use sccp_codec::{Address, Field, Parts, Routing, TitleIndicator, Udt};
use settings::{Limits, Sls};

/// The service indicator of SCCP (Q.704 §14.2.1).
const SCCP: u8 = 3;

/// Protocol class 0, with return on error (Q.713 §3.6).
const RETURNED_ON_ERROR: u8 = 0x80;

/// The indicator of a title with all that a translation looks at (Q.713 §3.4.1).
const WHOLE_TITLE: u8 = 4;

/// The numbering plan of a title, and the encoding scheme of an even number of digits (Q.713 §3.4.2.3.3).
const PLAN_AND_SCHEME: u8 = PLAN << 4 | 2;

/// The subsystem that calls: a visitor location register (Q.713 §3.4.2.2).
const CALLING_SUBSYSTEM: u8 = 7;

/// What is in the data.
const FILLING: u8 = 0xaa;

/// Octets of a title before its digits.
const TITLE_HEAD: usize = 3;

/// Digits of a title, if rows don't have as many as may be.
const DIGITS: usize = 12;

/// The octets of a title with as many digits as a row may have. The first twelve are a title, too.
pub(crate) type Title = [u8; TITLE_HEAD + Limits::TITLE_DIGITS / 2];

/// A title that begins with these two octets: the first row leads the one of zeros, and no row that of 0xff. The digits
/// 4917 2000 follow, and further zeros.
pub(crate) fn title_from(first: u8) -> Title {
    let mut title = [0; TITLE_HEAD + Limits::TITLE_DIGITS / 2];
    let head = [
        TRANSLATION,
        PLAN_AND_SCHEME,
        NATURE,
        first,
        first,
        0x94,
        0x71,
        0x02,
    ];
    title[..head.len()].copy_from_slice(&head);
    title
}

/// Octets of such a message apart from its data and its title: the label, the message type, the class, three pointers,
/// and, each after its length, the called address, the calling one and the data.
const FRAME_OCTETS: usize = 4 + 5 + (1 + 2) + (1 + 4) + 1;

/// Octets of a title that these rows may lead.
fn title_octets(table: Table) -> usize
    ensures { result ≤ TITLE_HEAD + Limits.TITLE_DIGITS / 2 }
{
    match table {
        Table::Longest => TITLE_HEAD + Limits::TITLE_DIGITS / 2,
        _ => TITLE_HEAD + DIGITS / 2,
    }
}

/// Octets of such a message apart from its data, if there are these rows.
pub(crate) fn bare_octets(table: Table) -> usize
    ensures { 4 ≤ result }
{
    FRAME_OCTETS + title_octets(table)
}

/// A frame with a UDT of the adjacent point to this one, of this selection and this many octets from its label on. Its
/// title has as many digits as the rows ask for.
pub(crate) fn unitdata(title: &Title, table: Table, sls: Sls, octets: usize) -> Incoming
    requires { octets ≤ Limits.SIF_OCTETS }
{
    let filling = [FILLING; Limits::SIF_OCTETS];
    let title = &title[..title_octets(table)];
    let udt = Udt {
        class_octet: RETURNED_ON_ERROR,
        parts: Parts {
            called: called(title),
            calling: calling(),
            data: &filling[..octets.saturating_sub(FRAME_OCTETS + title.len())],
        },
    };
    let mut field: Field = [0; Limits::SIF_OCTETS];
    let Ok(count) = udt.write(label(sls).write(), &mut field) else {
        unreachable!()
    };
    Incoming::with_message(INTERNATIONAL << 6 | SCCP, &field[..count])
}

/// The label of a message of the adjacent point to this one, of this selection.
fn label(sls: Sls) -> Label {
    Label {
        opc: adjacent(),
        dpc: own(),
        sls,
    }
}

fn called(title: &[u8]) -> Address<'_>
    ensures { length (address_octets 0 (address_of result)) ≡ 2 + length title.now }
{
    Address {
        national: false,
        routing: Routing::Title,
        point: None,
        ssn: Some(SUBSYSTEM),
        title_indicator: TitleIndicator::new(WHOLE_TITLE).unwrap(),
        title,
    }
}

/// The address of a subsystem at the adjacent point. It names its point, so that the message doesn't grow on its way.
fn calling() -> Address<'static>
    ensures { length (address_octets 0 (address_of result)) ≡ 4 }
{
    Address {
        national: false,
        routing: Routing::Ssn,
        point: Some(adjacent()),
        ssn: Some(CALLING_SUBSYSTEM),
        title_indicator: TitleIndicator::new(0).unwrap(),
        title: &[],
    }
}
