//! SCRC, SCCP routing control (Q.714 §2.3, §4.2): SCCP messages for this point, and the translation rows that lead them
//! on.

ghost use Rattle.std.specs.Prelude.{◌≡◌, ◌≤◌, length};
ghost use Rattle.signalling_types.specs.Message.{lent};
ghost use Rattle.sccp_relay.specs.Relay.{relay};
ghost use Rattle.sccp_relay.specs.Values.{own_value};
ghost use Rattle.exchange_rules.specs.State.{with_node};
ghost use Rattle.exchange.specs.KeptQueues.{kept};
ghost use Rattle.exchange.specs.Calls.{is_memory_refused};
ghost use Rattle.exchange.specs.Relaying.{handled_or_refused, leads_by, own_in};
ghost use Rattle.exchange_rules.specs.Messages.{transfer};
ghost use Rattle.exchange_rules.specs.Exchange.{Ends};
ghost use Rattle.exchange_rules.specs.Messages as rule;

use super::Exchange;
use mtp3_codec::Label;
use node_links::NodeLinks;
use sccp_relay::{Own, Relayed, TitleKey, Ways, relay, returned};
use settings::{Cause, Limits, MsuRef, Outcome, PointCode, Settings, Sls, TitleRow};

/// Where the links of an exchange lead.
#[derive(Clone, Copy)]
pub struct LinkWays<'a> {
    settings: &'a Settings,
    links: &'a NodeLinks,
}

impl Ways for LinkWays<'_> {
    ghost use Rattle.exchange.specs.Relaying.{leads_by};

    ghost leads = { leads_by };

    fn lead_to(&self, point: PointCode, sls: Sls) -> bool {
        match self.settings.destination(point) {
            Some(destination) => self.links.link_of(destination, sls).is_some(),
            None => false,
        }
    }
}

impl Exchange {
    /// An SCCP message for this point: it is for a subsystem here, or goes on by the title of its called address. One
    /// that is refused is returned if it asks for that (Q.714 §2.3, §4.2).
    #[inline(never)]
    pub(super) fn on_unitdata(&mut self, message: MsuRef<'_>) -> Outcome
        requires { 4 ≤ length message.sif.now }
        ensures { Ends self.old result self.new
            (rule.on_unitdata kept self.old.settings (lent message.entry) self.old.node) }
    {
        let outcome = self.relay(message);
        if let Outcome::Refused(cause) = outcome {
            self.return_unitdata(cause, message);
        }
        outcome
    }

    /// What happens to an SCCP message, before it is returned. One that goes on is rewritten, and handled like any
    /// message for another point; what it says of a subsystem at another point is heard.
    fn relay(&mut self, message: MsuRef<'_>) -> Outcome
        requires { 4 ≤ length message.sif.now }
        ensures { Ends self.old result self.new (rule.relay_by kept self.old.settings
            (relay (rule.own_of self.old.settings self.old.node.parts) self.old.node.parts.titles
            message.entry.sif.now)
            (lent message.entry) self.old.node) }
    {
        let mut field = [0; Limits::SIF_OCTETS];
        match relay(message.sif, &self.titles, &self.own(), &mut field) {
            Relayed::Delivered => Outcome::Local,
            Relayed::Onward(count) => {
                let onward = MsuRef {
                    sio: message.sio,
                    sif: &field[..count],
                };
                self.transfer_written(onward)
            }
            Relayed::Heard(news) => {
                let sst = self.sst_ticks();
                self.titles.hear(sst, &news);
                Outcome::Handled
            }
            Relayed::Refused(cause) => Outcome::Refused(cause),
        }
    }

    /// Returns an SCCP message that was refused for this cause, if it should be: the UDTS or XUDTS is handled like any
    /// message for another point, and dropped if it has no way to go.
    fn return_unitdata(&mut self, cause: Cause, message: MsuRef<'_>)
        requires { 4 ≤ length message.sif.now }
        ensures { self.new ≡ with_node self.old (rule.return_unitdata kept self.old.settings cause
            (lent message.entry) self.old.node) }
    {
        let mut field = [0; Limits::SIF_OCTETS];
        if let Some(count) = returned(message.sif, cause, &self.titles, &self.own(), &mut field) {
            let udts = MsuRef {
                sio: message.sio,
                sif: &field[..count],
            };
            self.transfer_written(udts);
        }
    }

    /// An SCCP message that this node wrote goes the way of any message for another point.
    fn transfer_written(&mut self, message: MsuRef<'_>) -> Outcome
        requires whole { 4 ≤ length message.sif.now }
        requires fits { length message.sif.now ≤ Limits.SIF_OCTETS }
        ensures { Ends self.old result self.new
            (transfer kept self.old.settings None (lent message.entry) self.old.node) }
    {
        self.transfer(None, Label::at(message.sif), message)
    }

    /// The point that this node is, its subsystems, what it does for SCCP, and where its links lead.
    pub fn own(&self) -> Own<'_, LinkWays<'_>>
        ensures { own_value leads_by result ≡ rule.own_of self.now.settings self.now.node.parts }
    {
        own_in(&self.settings, &self.links)
    }

    /// An operator adds a translation row. If it is refused, nothing changes: DuplicateRow if there is a row with its
    /// key and digits, else TableFull, else NoMemory if an allocation was refused.
    pub(super) fn add_title(&mut self, row: TitleRow) -> Outcome
        ensures { Ends self.old result self.new
            (rule.add_title row (is_memory_refused result) self.old.node) }
    {
        handled_or_refused(self.titles.add(row))
    }

    /// An operator sets a translation row: it replaces the one of its key and digits, which needs no memory, or is added
    /// if there is none. If that is refused, TableFull or NoMemory, nothing changes.
    pub(super) fn set_title(&mut self, row: TitleRow) -> Outcome
        ensures { Ends self.old result self.new
            (rule.set_title row (is_memory_refused result) self.old.node) }
    {
        handled_or_refused(self.titles.set(row))
    }

    /// An operator removes the translation row of this key and these digits; NoSuchName if there is none.
    pub(super) fn remove_title(&mut self, key: TitleKey, digits: &[u8]) -> Outcome
        ensures { Ends self.old result self.new (rule.remove_title key digits.now self.old.node) }
    {
        handled_or_refused(self.titles.remove(key, digits))
    }
}

/// The point that a node with these settings and links is, its subsystems, what it does for SCCP, and where its links
/// lead.
pub(super) fn own_in<'a>(settings: &'a Settings, links: &'a NodeLinks) -> Own<'a, LinkWays<'a>>
    ensures { own_value leads_by result ≡ own_in settings.now links.now }
{
    Own {
        point: settings.own(),
        subsystems: settings.subsystems(),
        extended: settings.extended_unitdata(),
        answers_tests: settings.subsystem_tests(),
        hears_statuses: settings.timers().sst.is_some(),
        ways: LinkWays { settings, links },
    }
}

/// The outcome of an order that the table carried out, or refused.
fn handled_or_refused(answer: Result<(), Cause>) -> Outcome
    ensures { result ≡ handled_or_refused answer }
{
    match answer {
        Ok(()) => Outcome::Handled,
        Err(cause) => Outcome::Refused(cause),
    }
}
