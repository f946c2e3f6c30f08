//! HMDC, message discrimination (Q.704 §2.4): where a message goes, and what happens to it.

ghost use Rattle.std.specs.Prelude.{◌≡◌, ◌<◌, ◌≤◌, length};
ghost use Rattle.signalling_types.specs.Message.{lent};
ghost use Rattle.mtp3_codec.specs.Headings.{label_at};
ghost use Rattle.mtp3_codec.specs.declared.discrimination.Discrimination.{Discrimination};
ghost use Rattle.mtp3_codec.specs.declared.label.Label.{Label};
ghost use Rattle.exchange.specs.KeptQueues.{kept};
ghost use Rattle.exchange_rules.specs.Exchange.{Ends};
ghost use Rattle.exchange_rules.specs.Messages as rule;

use super::Exchange;
use mtp3_codec::{Discrimination, discriminate};
use settings::{Cause, Limits, LinkId, MsuRef, Notice, Outcome};

impl Exchange {
    /// A message in a frame, with the link that it came by. If it is refused, that is noted.
    #[inline(always)]
    pub(super) fn deliver(&mut self, link: LinkId, message: MsuRef<'_>) -> Outcome
        requires { link < length self.old.settings.links }
        ensures { Ends self.old result self.new
            (rule.deliver kept self.old.settings link (lent message.entry) self.old.node) }
    {
        let outcome = self.deliver_to(link, message);
        if let Outcome::Refused(cause) = outcome {
            self.note(Notice::Refused(cause, link));
        }
        outcome
    }

    /// A message in a frame goes to this point, to another, or nowhere.
    #[inline(always)]
    fn deliver_to(&mut self, link: LinkId, message: MsuRef<'_>) -> Outcome
        requires { link < length self.old.settings.links }
        ensures { Ends self.old result self.new
            (rule.deliver_to kept self.old.settings (rule.whither_goes self.old.settings (lent message.entry)) link
            (lent message.entry) self.old.node) }
    {
        match self.whither_goes(message) {
            Discrimination::Refused(cause) => Outcome::Refused(cause),
            Discrimination::Here(label) => self.distribute(link, label, message),
            Discrimination::Transfer(label) => self.transfer(Some(link), label, message),
        }
    }

    /// A message that a user part submits.
    pub(super) fn submit(&mut self, message: MsuRef<'_>) -> Outcome
        ensures { Ends self.old result self.new
            (rule.submit kept self.old.settings (lent message.entry) self.old.node) }
    {
        match self.whither_goes(message) {
            Discrimination::Refused(cause) => Outcome::Refused(cause),
            _ if message.is_management() => Outcome::Refused(Cause::NotInProfile),
            Discrimination::Here(_) => self.local(None, message),
            Discrimination::Transfer(label) => self.transfer(None, label, message),
        }
    }

    /// Where a message goes, by its length, then its label, then its network, then its destination.
    fn whither_goes(&self, message: MsuRef<'_>) -> Discrimination
        ensures whither { result ≡ rule.whither_goes self.now.settings (lent message.entry) }
        ensures here { (label : Label) → result ≡ Discrimination.Here label →
            label ≡ label_at message.entry.sif.now }
        ensures onward { (label : Label) → result ≡ Discrimination.Transfer label →
            label ≡ label_at message.entry.sif.now }
        ensures whole { (label : Label) → result ≡ Discrimination.Here label →
            4 ≤ length message.entry.sif.now }
        ensures fits { (label : Label) → result ≡ Discrimination.Transfer label →
            length message.entry.sif.now ≤ Limits.SIF_OCTETS }
    {
        if message.sif.len() > Limits::SIF_OCTETS {
            return Discrimination::Refused(Cause::TooLong);
        }
        discriminate(message, self.settings.own(), self.settings.network())
    }
}
