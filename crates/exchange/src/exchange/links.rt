//! Links that change. As long as none begins or ceases to carry traffic, what is known of routes stays, and no update
//! falls due.

ghost use Rattle.std.specs.Prelude.{◌≡◌, ◌<◌, drop, length, not, true, false, if◌then◌else◌};
ghost use Rattle.exchange_rules.specs.State.{with_node, with_parts, in_service, link_at, with_link};
ghost use Rattle.node_links.specs.NodeLinks.{acts_on, after_action, after_failure, recovered};
ghost use Rattle.exchange_rules.specs.LinkTests.{with_test_failed, with_test_passed};
ghost use Rattle.exchange_rules.specs.Opening.{with_active, opened_by};

use super::Exchange;
use link::{Action, Input, Period};
use settings::LinkId;

impl Exchange {
    /// Sets whether a link has an acknowledgement to send.
    #[inline(always)]
    pub(super) fn set_owed(&mut self, link: LinkId, owed: bool)
        requires { link < length self.old.settings.links }
        ensures { self.new ≡ with_node self.old (with_parts self.old.node (with_link self.old.node.parts link
            (record (link_at self.old.node.parts link) { acknowledgement_owed = owed }))) }
    {
        self.links.set_owed(link, owed);
    }

    pub(super) fn set_peer_busy(&mut self, link: LinkId, busy: bool)
        requires { link < length self.old.settings.links }
        ensures { self.new ≡ with_node self.old (with_parts self.old.node (with_link self.old.node.parts link
            (record (link_at self.old.node.parts link) { peer_busy = busy }))) }
    {
        self.links.set_peer_busy(link, busy);
    }

    /// The processor of a link's peer is out.
    pub(super) fn put_out(&mut self, link: LinkId)
        requires { link < length self.old.settings.links }
        ensures { self.new ≡ with_node self.old (with_parts self.old.node (with_link self.old.node.parts link
            (record (link_at self.old.node.parts link) { peer_outage = true }))) }
    {
        self.links.put_out(link);
    }

    /// The processor of a link's peer recovered: Ready answers that, unless a status waits still.
    pub(super) fn recover(&mut self, link: LinkId)
        requires there { link < length self.old.settings.links }
        requires serves { in_service self.old.node.parts link ≡ true }
        ensures { self.new ≡ with_node self.old (with_parts self.old.node
            (with_link self.old.node.parts link (recovered (link_at self.old.node.parts link)))) }
    {
        self.links.recover(link);
    }

    /// Sets whether a link's last test failed.
    pub(super) fn set_test_failed(&mut self, link: LinkId, failed: bool)
        requires { link < length self.old.settings.links }
        ensures { self.new ≡ with_node self.old
            (with_parts self.old.node (with_test_failed failed link self.old.node.parts)) }
    {
        self.links.set_test_failed(link, failed);
    }

    /// A link passes a test: in service it carries traffic from now on.
    pub(super) fn set_test_passed(&mut self, link: LinkId)
        requires { link < length self.old.settings.links }
        ensures { self.new ≡ with_node self.old
            (with_parts self.old.node (with_test_passed link self.old.node.parts)) }
    {
        let carried = self.links.state(link).carries_traffic();
        self.links.pass_test(link);
        let carries = self.links.state(link).carries_traffic();
        let changed = has_changed(carried, carries);
        self.pending.add_all_if(changed);
        self.flows_due.mark_all_if(changed);
    }

    /// Drops the status that has waited longest, if there is one.
    pub(super) fn drop_status(&mut self, link: LinkId)
        requires { link < length self.old.settings.links }
        ensures { self.new ≡ with_node self.old (with_parts self.old.node (with_link self.old.node.parts link
            (record (link_at self.old.node.parts link) {
              waiting = drop 1 (link_at self.old.node.parts link).waiting;
            }))) }
    {
        self.links.drop_status(link);
    }

    /// A link loses its association.
    pub(super) fn end_association(&mut self, link: LinkId)
        requires { link < length self.old.settings.links }
        ensures { self.new ≡ with_node self.old (with_parts self.old.node (with_link self.old.node.parts link
            (record (link_at self.old.node.parts link) { association = false }))) }
    {
        self.links.lose_association(link);
    }

    /// A link may open, with emergency proving if the operator asks for that.
    pub(super) fn let_open(&mut self, link: LinkId, emergency: bool)
        requires { link < length self.old.settings.links }
        ensures { self.new ≡ with_node self.old
            (with_parts self.old.node (with_active true emergency link self.old.node.parts)) }
    {
        self.links.allow(link, emergency);
    }

    /// A link may not open.
    pub(super) fn keep_down(&mut self, link: LinkId)
        requires { link < length self.old.settings.links }
        ensures { self.new ≡ with_node self.old
            (with_parts self.old.node (with_active false false link self.old.node.parts)) }
    {
        self.links.forbid(link);
    }

    /// A link begins to align, with an association and a proving period. If the settings say so, it tells first that it
    /// is out of service. Where links are tested, it has to pass a test
    /// before it carries traffic.
    pub(super) fn begin_to_align(&mut self, link: LinkId, period: Period)
        requires { link < length self.old.settings.links }
        ensures { self.new ≡ with_node self.old (with_parts self.old.node (with_link self.old.node.parts link
            (opened_by self.old.settings period (link_at self.old.node.parts link)))) }
    {
        let untested = self.tests_links();
        let carried = self.links.state(link).carries_traffic();
        self.pending.add_all_if(carried);
        self.flows_due.mark_all_if(carried);
        self.links
            .open(link, self.settings.out_of_service(), period, untested);
    }

    /// A link is down. Its association stays.
    pub(super) fn fail_state(&mut self, link: LinkId)
        requires { link < length self.old.settings.links }
        ensures { self.new ≡ with_node self.old (with_parts self.old.node
            (with_link self.old.node.parts link (after_failure (link_at self.old.node.parts link)))) }
    {
        let carried = self.links.state(link).carries_traffic();
        self.pending.add_all_if(carried);
        self.flows_due.mark_all_if(carried);
        self.links.fail(link);
    }

    /// A link does what its alignment does about an input, and says what that is.
    #[inline(always)]
    pub(super) fn align(&mut self, link: LinkId, input: Input) -> Action
        requires { link < length self.old.settings.links }
        ensures action { result ≡ acts_on (link_at self.old.node.parts link) input }
        ensures state { self.new ≡ with_node self.old (with_parts self.old.node
            (with_link self.old.node.parts link (after_action result (link_at self.old.node.parts link)))) }
    {
        let carried = self.links.state(link).carries_traffic();
        let action = self.links.on(link, input);
        let carries = self.links.state(link).carries_traffic();
        let changed = has_changed(carried, carries);
        self.pending.add_all_if(changed);
        self.flows_due.mark_all_if(changed);
        action
    }
}

/// Whether a link began or ceased to carry traffic.
#[inline(always)]
fn has_changed(carried: bool, carries: bool) -> bool
    ensures { result ≡ (if carried then not carries else carries) }
{
    if carried { !carries } else { carries }
}
