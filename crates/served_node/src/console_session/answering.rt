//! Lines of a script that a client writes.

ghost use Rattle.script.specs.Asking.{asked_line};
ghost use Rattle.served_node.specs.Answers.{IsAnswered};

use exchange::Exchange;
use script::{Line, Sink, WriteFailed, perform, print};

/// Does a line of a script, and prints what a script prints for it.
pub fn do_script_line<W: Sink>(
    exchange: &mut Exchange,
    line: Line<'_>,
    writer: &mut W,
) -> Result<(), WriteFailed>
    ensures { IsAnswered (asked_line line.entry) exchange.old result exchange.new
        (W.output writer.old) (W.output writer.new) }
{
    let reply = perform(exchange, line);
    print(exchange, &reply, writer)
}
