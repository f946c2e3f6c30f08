//! HMDT, message distribution (Q.704 §2.4): a message for this point.

ghost use Rattle.std.specs.Prelude.{◌≡◌, ◌<◌, ◌≤◌, ◌&&◌, length, position, nat_eq, IfSome};
ghost use Rattle.signalling_types.specs.Message.{lent};
ghost use Rattle.mtp3_codec.specs.Headings.{label_at};
ghost use Rattle.mtp3_codec.specs.Management.{read_link_test, read_management};
ghost use Rattle.mtp3_codec.specs.Values.{test_value};
ghost use Rattle.exchange_rules.specs.State.{with_node};
ghost use Rattle.exchange.specs.KeptQueues.{kept};
ghost use Rattle.exchange_rules.specs.Telling.{send_on};
ghost use Rattle.exchange_rules.specs.Exchange.{Ends};
ghost use Rattle.exchange_rules.specs.Messages as rule;

use super::Exchange;
use mtp3_codec::{Label, LinkTest, Management, MgmtFault, TEST_OCTETS, TestKind};
use route_management::RouteTest;
use routes::RouteStatus;
use settings::{Cause, LinkId, LinkRow, MsuRef, Outcome, PointCode, SetId, Sls};
use signalling_types::Number24;

/// The service indicator of management (Q.704 §14.2.1).
const MANAGEMENT: u8 = 0;

/// The service indicator of tests (Q.704 §14.2.1).
const TESTING: u8 = 1;

/// The service indicator of SCCP (Q.704 §14.2.1).
const SCCP: u8 = 3;

impl Exchange {
    /// A message of this label for this point, by the link that it came by.
    #[inline(always)]
    pub(super) fn distribute(&mut self, link: LinkId, label: Label, message: MsuRef<'_>) -> Outcome
        requires link { link < length self.old.settings.links }
        requires label { label ≡ label_at message.sif.now }
        requires whole { 4 ≤ length message.sif.now }
        ensures { Ends self.old result self.new
            (rule.distribute kept self.old.settings link (lent message.entry) self.old.node) }
    {
        if message.is_management() || message.service_indicator() == SCCP {
            return self.distribute_to_mtp_or_sccp(link, label, message);
        }
        self.local(Some(link), message)
    }

    /// A message that isn't for a user part, apart from the path of those that are.
    #[inline(never)]
    fn distribute_to_mtp_or_sccp(
        &mut self,
        link: LinkId,
        label: Label,
        message: MsuRef<'_>,
    ) -> Outcome
        requires link { link < length self.old.settings.links }
        requires label { label ≡ label_at message.sif.now }
        requires whole { 4 ≤ length message.sif.now }
        ensures { Ends self.old result self.new
            (rule.distribute kept self.old.settings link (lent message.entry) self.old.node) }
    {
        if message.is_management() {
            self.manage(link, label, message)
        } else {
            self.local(Some(link), message)
        }
    }

    /// A message for SCCP, or for a user part of this node, with the link that it arrived on, if any. The origin of one
    /// that arrived on a link for another user part is told so.
    #[inline(always)]
    pub(super) fn local(&mut self, from: Option<LinkId>, message: MsuRef<'_>) -> Outcome
        requires { 4 ≤ length message.sif.now }
        ensures { Ends self.old result self.new
            (rule.local kept self.old.settings from (lent message.entry) self.old.node) }
    {
        let service_indicator = message.service_indicator();
        if service_indicator == SCCP {
            self.on_unitdata(message)
        } else if self.settings.is_user(service_indicator) {
            Outcome::Local
        } else {
            self.answer_no_user_part(from, message);
            Outcome::Refused(Cause::NoUserPart)
        }
    }

    /// A management or test message, with the link that it arrived on. Of a point that isn't adjacent only UPU is
    /// accepted.
    fn manage(&mut self, link: LinkId, label: Label, message: MsuRef<'_>) -> Outcome
        requires link { link < length self.old.settings.links }
        requires label { label ≡ label_at message.sif.now }
        ensures { Ends self.old result self.new
            (rule.manage kept self.old.settings link (lent message.entry) self.old.node) }
    {
        if self.settings.set_to(label.opc).is_none() {
            return self.from_afar(message);
        }
        if message.service_indicator() == TESTING {
            self.do_test(link, label.opc, message.sif)
        } else {
            self.do_management(label.opc, message.sif)
        }
    }

    /// What becomes of a management or test message from a point that isn't adjacent.
    fn from_afar(&self, message: MsuRef<'_>) -> Outcome
        ensures { result ≡ rule.from_afar self.now.settings (lent message.entry) }
    {
        if self.settings.user_part_unavailable() && says_unavailable(message) {
            Outcome::Handled
        } else {
            Outcome::Refused(Cause::NotFromAdjacent)
        }
    }

    /// A user part unavailable: it has no effect, and nothing tells the users here. It is left out if this node doesn't
    /// say so itself.
    fn on_unavailable(&self) -> Outcome
        ensures { result ≡ rule.on_unavailable self.now.settings }
    {
        if self.settings.user_part_unavailable() {
            Outcome::Handled
        } else {
            Outcome::Refused(Cause::NotInProfile)
        }
    }

    /// A test message from an adjacent point.
    fn do_test(&mut self, link: LinkId, point: PointCode, sif: &[u8]) -> Outcome
        requires { link < length self.old.settings.links }
        ensures { Ends self.old result self.new
            (rule.do_test kept self.old.settings (read_link_test sif.now) link point self.old.node) }
    {
        match LinkTest::read(sif) {
            Err(fault) => Outcome::Refused(cause_of(fault)),
            Ok(test) if test.kind == TestKind::Test => {
                self.answer_test(link, point, &test);
                Outcome::Handled
            }
            Ok(test) => self.on_test_answer(link, point, &test),
        }
    }

    /// Answers a link test on the link that it arrived on (Q.707 §2.2).
    fn answer_test(&mut self, link: LinkId, point: PointCode, test: &LinkTest<'_>)
        requires link { link < length self.old.settings.links }
        requires pattern { length test.now.pattern.now ≤ 15 }
        ensures { self.new ≡ with_node self.old (send_on kept self.old.settings link
            (rule.test_answer self.old.settings point (test_value test.now)) self.old.node) }
    {
        let mut octets = [0; TEST_OCTETS];
        let count = test.answer(point, self.settings.own(), &mut octets);
        let answer = MsuRef {
            sio: self.own_sio(TESTING),
            sif: &octets[..count],
        };
        self.send_on(link, point, answer);
    }

    /// A management message from an adjacent point.
    fn do_management(&mut self, point: PointCode, sif: &[u8]) -> Outcome
        ensures { Ends self.old result self.new
            (rule.do_management kept self.old.settings (read_management sif.now) point self.old.node) }
    {
        match Management::read(sif) {
            Err(fault) => Outcome::Refused(cause_of(fault)),
            Ok(message) => self.on_management(point, message),
        }
    }

    /// Does what a management message from an adjacent point asks; TRA asks for nothing.
    fn on_management(&mut self, point: PointCode, message: Management) -> Outcome
        ensures { Ends self.old result self.new
            (rule.on_management kept self.old.settings message point self.old.node) }
    {
        match message {
            Management::TrafficRestartAllowed => Outcome::Ignored,
            Management::UserPartUnavailable(_, _, _) => self.on_unavailable(),
            Management::ExtendedChangeoverOrder(slc, number) => {
                self.do_order(point, slc, Some(number))
            }
            Management::EmergencyChangeoverOrder(slc) => self.do_order(point, slc, None),
            Management::ExtendedChangeoverAcknowledgement(slc, number) => {
                self.do_acknowledgement(point, slc, Some(number))
            }
            Management::EmergencyChangeoverAcknowledgement(slc) => {
                self.do_acknowledgement(point, slc, None)
            }
            Management::ChangebackDeclaration(slc, code) => self.on_changeback_declaration(
                point, slc, code,
            ),
            Management::ChangebackAcknowledgement(_, code) => {
                self.on_changeback_acknowledgement(point, code)
            }
            Management::TransferProhibited(about) => {
                self.on_route_status(RouteStatus::Prohibited, point, about)
            }
            Management::TransferRestricted(about) => {
                self.on_route_status(RouteStatus::Restricted, point, about)
            }
            Management::TransferAllowed(about) => {
                self.on_route_status(RouteStatus::Allowed, point, about)
            }
            Management::RouteSetTestProhibited(about) => {
                self.on_route_test(RouteTest::Prohibited, point, about)
            }
            Management::RouteSetTestRestricted(about) => {
                self.on_route_test(RouteTest::Restricted, point, about)
            }
        }
    }

    /// An order to change over from the link of a code in the set to its sender.
    fn do_order(&mut self, point: PointCode, slc: Sls, number: Option<Number24>) -> Outcome
        ensures { Ends self.old result self.new (rule.do_order kept self.old.settings
            (rule.link_with_code self.old.settings point slc) number self.old.node) }
    {
        match self.link_with_code(point, slc) {
            Some(link) => self.on_changeover_order(link, number),
            None => Outcome::Refused(Cause::BadManagement),
        }
    }

    /// The answer to such an order.
    fn do_acknowledgement(
        &mut self,
        point: PointCode,
        slc: Sls,
        number: Option<Number24>,
    ) -> Outcome
        ensures { Ends self.old result self.new (rule.do_acknowledgement kept self.old.settings
            (rule.link_with_code self.old.settings point slc) number self.old.node) }
    {
        match self.link_with_code(point, slc) {
            Some(link) => self.on_changeover_acknowledgement(link, number),
            None => Outcome::Refused(Cause::BadManagement),
        }
    }

    /// The link of a code in the set that leads to a point.
    fn link_with_code(&self, point: PointCode, slc: Sls) -> Option<LinkId>
        ensures link { result ≡ rule.link_with_code self.now.settings point slc }
        ensures fits { IfSome result (λ link. link < length self.now.settings.links) }
    {
        let set = self.settings.set_to(point)?;
        let place = place_in_set(self.settings.links(), slc, set)?;
        Some(LinkId::new(place as u8))
    }
}

/// The place of the link of a code in a set.
fn place_in_set(links: &[LinkRow], slc: Sls, set: SetId) -> Option<usize>
    ensures place { result ≡ position (λ l. nat_eq l.set set && nat_eq l.slc slc) links.now }
    ensures fits { IfSome result (λ place. place < length links.now) }
{
    links
        .iter()
        .position(|row| row.set() == set && row.slc() == slc.number())
}

/// Whether a message says that a user part isn't at its sender.
fn says_unavailable(message: MsuRef<'_>) -> bool
    ensures { result ≡ rule.says_unavailable (lent message.entry) }
{
    message.service_indicator() == MANAGEMENT
        && matches!(
            Management::read(message.sif),
            Ok(Management::UserPartUnavailable(_, _, _))
        )
}

/// Why a management or test message that can't be read is refused.
fn cause_of(fault: MgmtFault) -> Cause
    ensures { result ≡ rule.cause_of fault }
{
    match fault {
        MgmtFault::Short => Cause::BadManagement,
        MgmtFault::NotInProfile => Cause::NotInProfile,
    }
}
