//! What a server does as it stops.

ghost use Rattle.std.specs.Prelude.{◌≡◌};
ghost use Rattle.std.specs.Option.{option_map};
ghost use Rattle.exchange.specs.KeptQueues.{kept};
ghost use Rattle.status_page.specs.Measuring.{kept_messages};
ghost use Rattle.stp_server.specs.Stopping.{kept_line};

use super::Server;
use arrayvec::ArrayString;
use exchange::Exchange;
use itoa::Buffer;
use script::Sink;
use served_node::Log;
use status_page::kept_messages;
use std::time::Duration;

/// Octets of the line of how many messages are kept, at most: a word, and a number of 64 bits.
const KEPT_OCTETS: usize = 25;

impl Server {
    /// Its associations over SCTP end by ABORT, and what was captured goes out. Then the log is told of how many
    /// notices it has no line, and how many user messages the node keeps, if it keeps some: they end with it, and no
    /// notice says so.
    pub fn stop<W: Sink>(&mut self, now: Duration, log: &mut W) {
        let mut log = Log { sink: log, now };
        if self.links.close(&mut self.node, &mut log) {
            self.node.observers.flush_capture(&mut log);
        }
        self.node.observers.tell_last_missed(&mut log);
        if let Some(line) = kept_line(&self.node.exchange) {
            log.tell(&line.as_str());
        }
    }
}

/// The line of how many user messages a node keeps, if it keeps some.
fn kept_line(exchange: &Exchange) -> Option<ArrayString<KEPT_OCTETS>>
    ensures { option_map (λ line. line.bytes) result ≡ kept_line (kept_messages kept exchange.now) }
{
    let count = kept_messages(exchange);
    if count == 0 {
        return None;
    }
    let mut line = ArrayString::new();
    let mut buffer = Buffer::new();
    line.push_str("kept ");
    line.push_str(buffer.format(count));
    Some(line)
}
