//! A network over gates: three nodes in a row, whose links go over SCTP.
//!
//! Points 1 and 2 have two links, points 2 and 3 one. All links open, one between 1 and 2 is lost, and later both are;
//! each time all come back, and node 1 submits a message for point 3. In a tick, 100 ms, a tick passes at each node,
//! and then eight times what is due at each link: the near gate (nearer to point 1, which tries to open) settles, ticks
//! and fills, and the far one hears what it put out; then the other way round. A link is lost by close at the near
//! gate, whose ABORT the far one hears.
//!
//! For each end of each link a line says how it stands, how many messages, management among them, it accepted since it
//! last opened, how many wait there, and how many datagrams its gate put out since the start; the next line, at which
//! nodes a message may have been lost. Behind a message three lines say how many of the datagrams that each gate ever
//! put out end with it: one from 1 to 2, one from 2 to 3, and none else; and node 3 accepted one more.
//!
//! While one link is lost, no node says that a message may be lost: by the changeover over the other link both know
//! what the other accepted. If both links are lost, no order can go over, and nodes 1 and 2 say so once T1 or T2 ran
//! out.

mod gate_end;
mod network;
mod node;
mod node_settings;
mod outbox;

use exchange::{Label, Msu, PointCode, Sls};
use gate_end::GateEnd;
use network::{GateLink, Network};
use node::Node;
use signalling_types::number::next;
use std::io;

/// The service information octet of the ISDN user part in the international network (Q.704 §14.2).
const SIO: u8 = 0x85;

/// So many ticks pass behind a message.
const TICKS: usize = 5;

/// Runs the three nodes, and prints how they stand after each phase.
pub fn print_network<R: Print + AllocGlobal>(rt: &R) -> io::Result<()> {
    match Network::new(rt.alloc()) {
        Some(mut network) => run_phases(rt, &mut network),
        None => println!(rt; "memory ran out"),
    }
}

/// All links open, one of two is lost, and then both are. Each time a message crosses once all are back.
fn run_phases<R: Print>(rt: &R, network: &mut Network) -> io::Result<()> {
    report(rt, "new", network)?;
    cross(rt, network, *b"first.")?;
    network.close(0);
    // The changeover goes over the other link.
    network.carry();
    report(rt, "link 1-2 code 0 was lost", network)?;
    cross(rt, network, *b"second")?;
    network.close(0);
    network.close(1);
    report(rt, "both links 1-2 were lost", network)?;
    cross(rt, network, *b"third.")
}

/// All links come up, node 1 submits a message for point 3, and ticks pass.
fn cross<R: Print>(rt: &R, network: &mut Network, text: [u8; 6]) -> io::Result<()> {
    network.open();
    report(rt, "all links came up", network)?;
    let Some(message) = message_of(text) else {
        return println!(rt; "no message");
    };
    network.submit(&message);
    for _ in 0..TICKS {
        network.tick();
    }
    report(rt, "message for point 3 was submitted at 1", network)?;
    report_message(rt, &message, &network.links)
}

/// A message for point 3.
fn message_of(text: [u8; 6]) -> Option<Msu> {
    let label = Label {
        dpc: PointCode::new(3)?,
        opc: PointCode::new(1)?,
        sls: Sls::new(0)?,
    };
    let [a, b, c, d] = label.write();
    let [e, f, g, h, i, j] = text;
    Msu::new(SIO, &[a, b, c, d, e, f, g, h, i, j]).ok()
}

/// Prints how all links and nodes stand.
fn report<R: Print>(rt: &R, phase: &str, network: &Network) -> io::Result<()> {
    println!(rt; "{phase}, at {} ms", network.now)?;
    for link in &network.links {
        report_link(rt, link, &network.nodes)?;
    }
    report_losses(rt, &network.nodes)
}

/// Prints how a link stands at both ends.
fn report_link<R: Print>(rt: &R, link: &GateLink, nodes: &[Node]) -> io::Result<()> {
    print!(rt; "  link {}:", link.name)?;
    print_end(rt, &link.near, nodes)?;
    print!(rt; ";")?;
    print_end(rt, &link.far, nodes)?;
    println!(rt;)
}

/// Prints at which nodes a message may have been lost.
fn report_losses<R: Print>(rt: &R, nodes: &[Node]) -> io::Result<()> {
    print!(rt; "  lost any at 1, 2, 3:")?;
    let mut separator = "";
    for node in nodes {
        print!(rt; "{separator} {}", node.lost_any())?;
        separator = ",";
    }
    println!(rt;)
}

/// Prints how a link stands at one end.
fn print_end<R: Print>(rt: &R, end: &GateEnd, nodes: &[Node]) -> io::Result<()> {
    let Some(view) = end.shown(nodes) else {
        return print!(rt; " none");
    };
    print!(rt;
        " at {} {}, accepted {}, waiting {}, datagrams {}",
        end.point,
        view.standing.name(),
        // The number of the last is one less than how many came.
        next(view.last_accepted).value(),
        view.waiting,
        end.outbox.sent()
    )
}

/// Prints how many of the datagrams that each gate put out end with a message.
fn report_message<R: Print>(rt: &R, message: &Msu, links: &[GateLink]) -> io::Result<()> {
    for link in links {
        let near = link.near.outbox.carrying(message.sif());
        let far = link.far.outbox.carrying(message.sif());
        println!(rt;
            "  datagrams that end with it, link {}: {near}, {far}",
            link.name
        )?;
    }
    Ok(())
}
