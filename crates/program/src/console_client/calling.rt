//! Calling a console.

ghost use Rattle.std.specs.Prelude.{◌≡◌, false, IfOk};
ghost use Rattle.program.specs.ConsoleAnswers.{nothing};
ghost use Rattle.program.specs.ConsoleCalls.{is_write_failed, Calls};

use crate::console_client::answers::{Answers, Verdict};
use crate::console_client::conversation::{CONNECTION, Conversation, is_input_told};
use crate::console_client::fault::CallFault;
use crate::console_client::outgoing::Outgoing;
use mio::net::{TcpStream, UnixStream};
use mio::{Events, Poll};
use script::{Sink, Source};
use served_node::ConsoleStream;
use settings_file::serve::ConsolePlace;
use std::os::unix;
use std::{io, net};

/// Events that one wait tells of, at most: one of each source.
const EVENTS: usize = 2;

/// Calls the console at this place, writes it these words as one line, or what the reader gives if there are none, and
/// prints what it answers, as it comes. Then it ends its half, so that the console closes the connection after the last
/// answer; a node that stops does so when its work is done.
///
/// Connect if nobody answers there. Lost if the connection breaks, ends within a line or before all was written, or
/// ends before each line that always has an answer was answered; but not behind an answer that closes it, since the
/// node stops, has no place for this client, or can't read its first line. What came before an error was printed; after
/// Write the first octets of it, however many.
pub fn call<R: Source, W: Sink>(
    rt: &HostRuntime,
    place: ConsolePlace<'_>,
    words: &[String],
    reader: &mut R,
    writer: &mut W,
) -> Result<Verdict, CallFault>
    ensures { Calls words.now (R.input reader.old).remaining result (W.output writer.old) (W.output writer.new) }
{
    let outgoing = Outgoing::new(rt.alloc(), words)?;
    let stream = match connected(rt, place) {
        Ok(stream) => stream,
        Err(error) => return Err(CallFault::Connect(error.kind())),
    };
    let mut conversation = begun(rt, stream, outgoing)?;
    let is_whole = conversation.run(reader, writer)?;
    conversation
        .answers
        .verdict(is_whole, conversation.outgoing.due())
}

/// A connection to a console. Its reads and writes wait for nobody.
fn connected(rt: &HostRuntime, place: ConsolePlace<'_>) -> io::Result<ConsoleStream> {
    match place {
        ConsolePlace::Tcp(address) => {
            let stream = net::TcpStream::connect(rt, address)?;
            stream.set_nonblocking(true)?;
            Ok(ConsoleStream::Tcp(TcpStream::from_std(stream)))
        }
        ConsolePlace::Unix(path) => {
            let stream = unix::net::UnixStream::connect(rt, path)?;
            stream.set_nonblocking(true)?;
            Ok(ConsoleStream::Unix(UnixStream::from_std(stream)))
        }
    }
}

/// A conversation over this connection, in which nothing was written yet.
fn begun(
    rt: &HostRuntime,
    mut stream: ConsoleStream,
    outgoing: Outgoing,
) -> Result<Conversation, CallFault>
    ensures answers { IfOk result (λ conversation. conversation.answers ≡ nothing) }
    ensures outgoing { IfOk result (λ conversation. conversation.outgoing ≡ outgoing) }
    ensures quiet { is_write_failed result ≡ false }
{
    let events = Events::with_capacity(rt.alloc(), EVENTS)?;
    let Ok(poll) = Poll::new(rt) else {
        return Err(CallFault::Poll);
    };
    if stream.register(poll.registry(), CONNECTION).is_err() {
        return Err(CallFault::Poll);
    }
    let is_input_polled = outgoing.wants_more() && is_input_told(poll.registry());
    Ok(Conversation {
        stream,
        poll,
        events,
        outgoing,
        answers: Answers::new(),
        is_input_polled,
        is_input_ready: !is_input_polled,
        can_read: true,
        can_write: true,
        has_ended_writing: false,
    })
}
