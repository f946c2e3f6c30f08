//! Packets of SCTP, read and written (RFC 9260 §3).
#![tactic(auto)]

mod body;
mod cause;
mod chunk;
mod header;
mod inits;
mod item;
mod items;
pub mod laws;
mod layout;
mod packet;
mod parameters;
mod reports;
mod writing;

pub use cause::Cause;
pub use chunk::{Block, Blocks, Chunk, Data, Init, Numbers, Offer, Sack, StreamId, Tag, Tsn};
pub use header::Header;
pub use inits::{MOST_ADDRESSES, write_init, write_init_ack};
pub use item::Item;
pub use items::Items;
pub use packet::{Chunks, Packet};
pub use parameters::{cookie, has_stale_cookie, heartbeat_information, host_name};
pub use reports::{Reports, write_unrecognized_parameters};
pub use writing::{
    PACKET_OCTETS, PacketBuffer, begin, finish, finish_behind, write_abort, write_cookie_ack,
    write_cookie_echo, write_data, write_error, write_heartbeat, write_heartbeat_ack,
    write_reflected_abort, write_sack, write_shutdown, write_shutdown_ack, write_shutdown_complete,
};
