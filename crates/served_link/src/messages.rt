//! The messages of a link, by kind.

ghost use Rattle.std.specs.Prelude.{◌≡◌, slice_index, slice_index_or};
ghost use Rattle.signalling_types.specs.Message.{lent};
ghost use Rattle.served_link.specs.Kinds.{kind_number};
ghost use Rattle.served_link.specs.Messages.{kind_counted, message_counted, no_messages, none_counted};

use crate::management_kind::{MANAGEMENT_KINDS, ManagementKind};
use signalling_types::MsuRef;

/// How many service indicators there are (Q.704 §14.2.1).
pub const SERVICES: usize = 16;

/// How many messages there were of each service indicator, and of each kind of management message. Each count stays at
/// 2^64 - 1 once it is there.
#[derive(Clone, Copy)]
pub struct MessageCounts {
    /// Of each service indicator.
    pub services: [u64; SERVICES],
    /// Of each kind of management message and link test, in the order of `ManagementKind`.
    pub kinds: [u64; MANAGEMENT_KINDS],
}

impl MessageCounts {
    /// Nothing is counted yet.
    pub fn new() -> MessageCounts
        ensures { result ≡ none_counted }
    {
        MessageCounts {
            services: [0; SERVICES],
            kinds: [0; MANAGEMENT_KINDS],
        }
    }

    /// How many messages had a service indicator; none if there is no such one.
    pub fn of_service(&self, service: u8) -> u64
        ensures { result ≡ slice_index_or self.now.services service 0 }
    {
        self.services
            .get(usize::from(service))
            .copied()
            .unwrap_or(0)
    }

    /// How many messages were of a kind.
    pub fn of_kind(&self, kind: ManagementKind) -> u64
        ensures { result ≡ slice_index self.now.kinds (kind_number kind) }
    {
        self.kinds[kind.place()]
    }

    /// One message more.
    pub fn count(&mut self, message: MsuRef<'_>)
        ensures { self.new ≡ message_counted (lent message.entry) self.old }
    {
        let place = usize::from(message.service_indicator());
        self.services[place] = self.services[place].saturating_add(1);
        self.count_kind(ManagementKind::of(message));
    }

    /// One message more of a kind, if it is of one.
    fn count_kind(&mut self, kind: Option<ManagementKind>)
        ensures { self.new ≡ kind_counted kind self.old }
    {
        if let Some(kind) = kind {
            let place = kind.place();
            self.kinds[place] = self.kinds[place].saturating_add(1);
        }
    }
}

/// The messages of a link: those that came, whatever became of them, and those that went out.
#[derive(Clone, Copy)]
pub struct LinkMessages {
    /// Those that came in.
    pub heard: MessageCounts,
    /// Those that went out.
    pub sent: MessageCounts,
}

impl LinkMessages {
    /// No message yet.
    pub fn new() -> LinkMessages
        ensures { result ≡ no_messages }
    {
        LinkMessages {
            heard: MessageCounts::new(),
            sent: MessageCounts::new(),
        }
    }
}
