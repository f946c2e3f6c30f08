//! Plays sessions that were recorded between usrsctp 0.9.5, an SCTP of other authors, and another endpoint. It hands an
//! `Endpoint` what usrsctp sent, at the time when it came, and does the same calls. `stdout` was written from what the
//! user of the recorded end was told, so a session goes wrong at the first line that differs.
//!
//! Each session is a file in `data/`. Octets are hexadecimal, times milliseconds. A line that begins with `#` says what
//! happens; in every other line the first word is the kind of the row:
//!
//! - `open TIME HOW`, `tick TIME`, `shutdown TIME`, `send STREAM PROTOCOL OCTETS`: a call;
//! - `hear TIME DATAGRAM`: what came from usrsctp;
//! - `drew TAG TSN`: a tag and first TSN that the recorded end drew;
//! - `told WHAT`: what its user was told;
//! - `answered WHAT: CHUNKS`: the types of the chunks that it put out by a call, or by what came.
//!
//! An `Endpoint` draws other tags and first TSNs, and signs cookies of its own. So in what comes the verification tag,
//! the TSNs of SACK and SHUTDOWN, the echoed cookie and the checksum are made to fit (`fitting`). All other octets are
//! those of usrsctp. Of the one message of 300 octets that the recorded end sent, an `Endpoint` takes the first 290.
//!
//! Below the name of a session is what the user was told, each message with its stream, its protocol and its octets;
//! what is put out by calls and by all that came but messages and SACK, and what the recorded end put out; how many
//! datagrams with messages came, and how many of them SACK answered at once; how many cookies were echoed, and how many
//! of them as usrsctp had sent them; how many datagrams were heard, and put out; and whether the user was told what the
//! recorded one was. How many are put out is no matter of the recording: the other end, which delayed SACK, put out 24,
//! 10, 76 and 6.

mod fitting;
mod names;
mod recorder;
mod rows;
mod session;

use session::Session;
use std::rt::Files;
use std::{fs, io};

/// Plays a session, and prints what came of it.
pub fn print_session<R: Files + Print + AllocGlobal>(rt: &R, name: &str) -> io::Result<()> {
    let rows = fs::read_to_string(rt, name)?;
    println!(rt; "{name}")?;
    let mut session = Session::new(rt.alloc())?;
    for row in rows.as_str().lines() {
        session.play(row);
    }
    let told = session.told();
    let heard = session.heard();
    let put_out = session.put_out();
    let (answers, recorded) = session.answers();
    let (messages, confirmed) = session.confirmed();
    let (echoed, as_it_came) = session.echoed();
    let verdict = session.verdict();
    print!(rt; "{told} put out\n{answers} recorded\n{recorded}")?;
    println!(rt; " messages {messages}, answered by SACK at once {confirmed}")?;
    println!(rt; " cookies echoed {echoed}, as they came {as_it_came}")?;
    println!(rt; " heard {heard}, put out {put_out}")?;
    println!(rt; " {verdict}")
}
