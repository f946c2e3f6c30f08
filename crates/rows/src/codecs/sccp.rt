//! Addresses and messages of SCCP.

use crate::said::Said;
use sccp_codec::{Address, Routing, Unitdata};
use signalling_types::Limits;

/// Says an address, and its title.
pub(crate) fn address(said: &mut Said, octets: &[u8]) {
    match Address::read(octets) {
        Ok(address) => {
            say_address(said, &address);
            say_title(said, &address);
        }
        Err(fault) => said.fault(fault.number(), &fault),
    }
}

fn say_address(said: &mut Said, address: &Address<'_>) {
    if address.national {
        said.say("national");
    }
    said.say(match address.routing {
        Routing::Title => "by title",
        Routing::Ssn => "by ssn",
    });
    if let Some(point) = address.point {
        said.say(format_args!("point {}", point.code()));
    }
    if let Some(ssn) = address.ssn {
        said.say(format_args!("ssn {ssn}"));
    }
    said.say(format_args!("title {}", address.title_indicator.number()));
    said.octets(address.title);
}

fn say_title(said: &mut Said, address: &Address<'_>) {
    match address.global_title() {
        Ok(title) => said.say(format_args!(
            "translation {} plan {} nature {} {:?}",
            title.key.translation,
            title.key.plan,
            title.key.nature,
            title.digits().as_slice()
        )),
        Err(cause) => said.fault(cause.number(), &cause),
    }
}

/// Says a message, and whether it is the same when written again.
pub(crate) fn unitdata(said: &mut Said, octets: &[u8]) {
    match Unitdata::read(octets) {
        Ok(message) => {
            say_message(said, &message);
            write_again(said, &message, octets);
        }
        Err(fault) => said.fault(fault.number(), &fault),
    }
}

fn say_message(said: &mut Said, message: &Unitdata<'_>) {
    let (kind, octet) = match message {
        Unitdata::Udt(udt) => ("udt class", udt.class_octet),
        Unitdata::Udts(udts) => ("udts cause", udts.return_cause),
    };
    let parts = message.parts();
    said.say(format_args!("{kind} {octet:02x} called"));
    say_address(said, &parts.called);
    said.say("calling");
    say_address(said, &parts.calling);
    said.say("data");
    said.octets(parts.data);
}

/// Says whether octets are the same when their message is written again.
fn write_again(said: &mut Said, message: &Unitdata<'_>, octets: &[u8]) {
    let mut field = [0xee; Limits::SIF_OCTETS];
    let written = match message {
        Unitdata::Udt(udt) => udt.write([0; 4], &mut field),
        Unitdata::Udts(udts) => udts.write([0; 4], &mut field),
    };
    match written {
        Ok(count) => said.again(field.get(4..count).unwrap_or(&[]), octets),
        Err(cause) => said.fault(cause.number(), &cause),
    }
}
