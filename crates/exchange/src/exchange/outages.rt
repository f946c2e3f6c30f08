//! The peer's processor is out, and back (Q.703 §8), where the settings keep a link in service meanwhile.

ghost use Rattle.std.specs.Prelude.{◌≡◌, ◌<◌, length, true};
ghost use Rattle.exchange_rules.specs.State.{with_node, with_parts, in_service};
ghost use Rattle.exchange_rules.specs.Frames.{in_outage};
ghost use Rattle.exchange.specs.KeptQueues.{kept};
ghost use Rattle.exchange_rules.specs.Frames as rule;
ghost use Rattle.flow_hold.specs.Holds.{lifted};
ghost use Rattle.flow_hold.specs.declared.procedure.Procedure.TheVariants as holder;

use super::Exchange;
use flow_hold::Procedure;
use m2pa_codec::LinkStatus;
use settings::LinkId;

impl Exchange {
    /// Whether a status tells a link in service that its peer's processor is out, and the settings keep it in service.
    pub(super) fn tells_outage(&self, link: LinkId, status: LinkStatus) -> bool
        requires { link < length self.now.settings.links }
        ensures { result ≡ rule.tells_outage self.now.settings link status self.now.node.parts }
    {
        self.settings.processor_outage() && is_outage(status) && self.serves(link)
    }

    /// Whether a status ends an outage.
    pub(super) fn tells_recovery(&self, link: LinkId, status: LinkStatus) -> bool
        requires { link < length self.now.settings.links }
        ensures { result ≡ rule.tells_recovery link status self.now.node.parts }
    {
        is_recovery(status) && self.serves(link) && self.links.state(link).is_peer_out()
    }

    /// The peer's processor is out: if it says so twice, the second changes nothing.
    pub(super) fn hear_outage(&mut self, link: LinkId)
        requires { link < length self.old.settings.links }
        ensures { self.new ≡ with_node self.old (rule.hear_outage kept self.old.settings link self.old.node) }
    {
        if !self.links.state(link).is_peer_out() {
            self.begin_outage(link);
        }
    }

    /// An outage begins: a Busy of the peer is forgotten, it takes no messages from now on, which L6 watches in place
    /// of L7, and the flows of the link are held.
    fn begin_outage(&mut self, link: LinkId)
        requires { link < length self.old.settings.links }
        ensures { self.new ≡ with_node self.old (rule.begin_outage kept self.old.settings link self.old.node) }
    {
        self.end_busy(link);
        self.become_busy(link);
        self.put_out(link);
        self.suspend(link);
    }

    /// An outage ends: the flows of the link are held no longer, Ready goes out, and the peer takes messages again.
    pub(super) fn end_outage(&mut self, link: LinkId)
        requires there { link < length self.old.settings.links }
        requires out { in_outage self.old.node.parts link ≡ true }
        ensures { self.new ≡ with_node self.old (rule.end_outage kept self.old.settings link self.old.node) }
    {
        self.let_back(link);
        self.end_busy(link);
    }

    /// The outage is over, which Ready answers, and the changeover of the link no longer holds anything.
    fn let_back(&mut self, link: LinkId)
        requires there { link < length self.old.settings.links }
        requires serves { in_service self.old.node.parts link ≡ true }
        ensures { self.new
            ≡ with_node self.old (with_parts self.old.node (rule.let_back link self.old.node.parts)) }
    {
        self.recover(link);
        self.lift_outage(link);
    }

    /// The changeover of a link holds nothing any more.
    fn lift_outage(&mut self, link: LinkId)
        ensures { self.new ≡ with_node self.old (with_parts self.old.node (record self.old.node.parts {
          holds = lifted self.old.node.parts.holds (holder.Changeover link);
        })) }
    {
        self.release_due = true;
        self.holds.lift(Procedure::Changeover(link));
    }
}

/// Whether a status says that a processor is out.
fn is_outage(status: LinkStatus) -> bool
    ensures { result ≡ rule.is_outage status }
{
    matches!(status, LinkStatus::ProcessorOutage)
}

/// Whether a status says that a processor is back.
fn is_recovery(status: LinkStatus) -> bool
    ensures { result ≡ rule.is_recovery status }
{
    matches!(status, LinkStatus::ProcessorRecovered)
}
