//! Packets of SCTP.

use crate::said::Said;
use sctp_codec::{Chunk, Data, Items, Offer, Packet, Sack};

/// Says what the octets are as a packet: its ports and its tag, and its chunks in their order.
pub(crate) fn packet(said: &mut Said, octets: &[u8]) {
    let Some(packet) = Packet::read(octets) else {
        return said.say("no packet");
    };
    said.say(format_args!(
        "{} {} tag {}",
        packet.source, packet.destination, packet.tag
    ));
    for chunk in packet.chunks() {
        say_chunk(said, chunk);
    }
}

fn say_chunk(said: &mut Said, chunk: Chunk<'_>) {
    match chunk {
        Chunk::Data(data) => say_data(said, &data),
        Chunk::Init(init) => say_offer(said, "init", init.offer, init.parameters),
        Chunk::InitAck(init) => say_offer(said, "init_ack", init.offer, init.parameters),
        Chunk::Sack(sack) => say_sack(said, &sack),
        Chunk::Heartbeat(information) => say_octets(said, "heartbeat", information),
        Chunk::HeartbeatAck(information) => say_octets(said, "heartbeat_ack", information),
        Chunk::Abort {
            is_reflected,
            causes,
        } => {
            said.say(format_args!("| abort {is_reflected}"));
            said.octets(causes);
        }
        Chunk::Shutdown { cumulative } => said.say(format_args!("| shutdown {cumulative}")),
        Chunk::ShutdownAck => said.say("| shutdown_ack"),
        Chunk::Error(causes) => {
            said.say("| error");
            say_kinds(said, causes);
        }
        Chunk::CookieEcho(cookie) => say_octets(said, "cookie_echo", cookie),
        Chunk::CookieAck => said.say("| cookie_ack"),
        Chunk::ShutdownComplete { is_reflected } => {
            said.say(format_args!("| shutdown_complete {is_reflected}"));
        }
        Chunk::Unknown { kind, flags, value } => {
            said.say(format_args!("| unknown {kind} {flags}"));
            said.octets(value);
        }
        Chunk::Malformed { kind } => said.say(format_args!("| malformed {kind}")),
    }
}

fn say_octets(said: &mut Said, name: &str, octets: &[u8]) {
    said.say(format_args!("| {name}"));
    said.octets(octets);
}

/// Says a DATA chunk: its number, stream, number in the stream, protocol, bits and user data.
fn say_data(said: &mut Said, data: &Data<'_>) {
    said.say(format_args!(
        "| data {} stream {} {} protocol {}",
        data.tsn, data.stream, data.sequence, data.protocol
    ));
    for (bit, name) in [
        (data.immediate, "immediate"),
        (data.unordered, "unordered"),
        (data.begins, "begins"),
        (data.ends, "ends"),
    ] {
        if bit {
            said.say(name);
        }
    }
    said.octets(data.octets);
}

/// Says what an INIT or INIT ACK offers: its tag, window, streams and first number, and the types of its parameters.
fn say_offer(said: &mut Said, name: &str, offer: Offer, parameters: Items<'_>) {
    said.say(format_args!(
        "| {name} {} window {} streams {} {} first {}",
        offer.tag, offer.window, offer.outgoing, offer.incoming, offer.first_tsn
    ));
    say_kinds(said, parameters);
}

/// Says the types of parameters or causes.
fn say_kinds(said: &mut Said, items: Items<'_>) {
    said.say("of");
    for item in items {
        said.say(item.kind);
    }
}

/// Says a SACK chunk: the cumulative number, window, gap blocks and duplicates.
fn say_sack(said: &mut Said, sack: &Sack<'_>) {
    said.say(format_args!("| sack {} window {}", sack.cumulative, sack.window));
    for block in sack.blocks {
        said.say(format_args!("from {} to {}", block.start, block.end));
    }
    for number in sack.duplicates {
        said.say(format_args!("twice {number}"));
    }
}
