//! An endpoint, with all that it ever put out.

ghost use Rattle.std.specs.Prelude.{◌≡◌, ◌<◌, ◌≤◌, ◌^◌, ◌&&◌, [], ◌∷◌, nat_lt, reverse, length, drop, IfOk, OnOk};
ghost use Rattle.sctp_codec.specs.Reading.{read_packet};
ghost use Rattle.sctp_sending.specs.Cells.{given_as};
ghost use Rattle.sctp_rules.specs.Sending.{may_send};
ghost use Rattle.sctp_rules.specs.Endpoint.{Opens, Ticked, Sends, Aborts, ShutsDown, Flushes};
ghost use Rattle.sctp_ends.specs.Told.{opened_by, with_last, text_given};
ghost use Rattle.sctp_bundling.specs.Settings.{settings_of, address_of};
ghost use Rattle.sctp_endpoint.specs.Endpoints.{secrets_of};
ghost use Rattle.sctp_endpoint.specs.Dispatching.{heard_datagram};
ghost use Rattle.sctp_world.specs.Kept.{Keeps, kept_happened, with_done, is_up_at, first_kept, octets_at};

use crate::log::{Datagram, Entry, Kept, Log};
use crate::messages::Messages;
use crate::text::Text;
use sctp_endpoint::endpoint::KEY_OCTETS;
use sctp_endpoint::{Address, Endpoint, Settings};
use sctp_sending::Message;
use std::alloc::{AllocError, Global};
use std::marker::Model;

/// An endpoint, all datagrams that it put out, all that its user was told, and all that the user gave.
#[derive(Drop)]
pub(crate) struct Site {
    endpoint: Endpoint,
    log: Log,
    given: Vec<Messages>,
}

impl Model for Site {
    ghost use Rattle.std.specs.Prelude.{reverse};
    ghost use Rattle.sctp_world.specs.Kept.{KeptSite};

    ghost Value = { KeptSite };

    ghost view = { λ site. record { endpoint = site.endpoint; log = site.log; given = reverse site.given.items } };
}

impl Site {
    /// A new endpoint, under these keys. The error means that memory ran out.
    pub(crate) fn new(
        alloc: Global,
        settings: Settings,
        tag_key: [u8; KEY_OCTETS],
        cookie_key: [u8; KEY_OCTETS],
    ) -> Result<Site, AllocError>
        requires initial { settings.bounds.initial ≤ settings.bounds.most }
        requires least { settings.bounds.least ≤ settings.bounds.most }
        requires most { settings.bounds.most ≤ 2 ^ 24 }
        ensures { IfOk result (λ site. site ≡ first_kept (settings_of settings) tag_key cookie_key) }
    {
        let endpoint = Endpoint::new(alloc, settings, tag_key, cookie_key)?;
        Ok(Site {
            endpoint,
            log: Log::new(alloc),
            given: Vec::new(alloc),
        })
    }

    /// Whether the endpoint lasts.
    pub(crate) fn lasts(&self) -> bool
        ensures { result
            ≡ (nat_lt self.now.endpoint.state.generation (2 ^ 63) && nat_lt self.now.endpoint.state.nonces (2 ^ 63)) }
    {
        self.endpoint.lasts()
    }

    /// All datagrams that the endpoint put out, in order.
    pub(crate) fn sent(&self) -> &[Datagram]
        ensures { result.now ≡ self.now.log.sent }
    {
        self.log.sent()
    }

    /// The octets of the datagram at an index of these; none if there is no such datagram.
    pub(crate) fn octets_at(&self, place: usize) -> &[u8]
        ensures { result.now ≡ octets_at self.now place }
    {
        match self.log.sent().get(place) {
            Some(datagram) => datagram.octets(),
            None => &[],
        }
    }

    /// All that its user gave in each association, the first one first.
    pub(crate) fn given(&self) -> &[Messages]
        ensures { reverse result.now ≡ self.now.given }
    {
        self.given.as_slice()
    }

    /// Whether memory never ran out for what is kept.
    pub(crate) fn is_whole(&self) -> bool
        ensures { result ≡ self.now.log.is_whole }
    {
        self.log.is_whole()
    }

    /// All that its user was told, in order.
    pub(crate) fn told(&self) -> &[Kept]
        ensures { result.now ≡ self.now.log.told }
    {
        self.log.told()
    }
}

impl Site {
    /// The user wants an association.
    pub(crate) fn open(&mut self, is_active: bool, now: u64)
        requires generation { self.old.endpoint.state.generation < 2 ^ 63 }
        requires now { now ≤ 2 ^ 63 }
        ensures { Keeps self.old (kept_happened (Opens now is_active) self.old) self.new }
    {
        let from = self.log.told().len();
        self.endpoint.open(is_active, now, &mut self.log);
        self.begin_lists(from);
    }

    /// The user ends the association.
    pub(crate) fn abort(&mut self)
        requires { self.old.endpoint.state.generation < 2 ^ 63 }
        ensures { Keeps self.old (kept_happened Aborts self.old) self.new }
    {
        let from = self.log.told().len();
        self.endpoint.abort(&mut self.log);
        self.begin_lists(from);
    }

    /// The user ends it once all that was sent is confirmed.
    pub(crate) fn shut_down(&mut self, now: u64)
        requires generation { self.old.endpoint.state.generation < 2 ^ 63 }
        requires now { now ≤ 2 ^ 63 }
        ensures { Keeps self.old (kept_happened (ShutsDown now) self.old) self.new }
    {
        let from = self.log.told().len();
        self.endpoint.shutdown(now, &mut self.log);
        self.begin_lists(from);
    }

    /// Time went by.
    pub(crate) fn tick(&mut self, now: u64)
        requires generation { self.old.endpoint.state.generation < 2 ^ 63 }
        requires nonces { self.old.endpoint.state.nonces < 2 ^ 63 }
        requires now { now ≤ 2 ^ 63 }
        ensures { Keeps self.old (kept_happened (Ticked now) self.old) self.new }
    {
        let from = self.log.told().len();
        self.endpoint.tick(now, &mut self.log);
        self.begin_lists(from);
    }

    /// Packets are asked for.
    pub(crate) fn flush(&mut self, now: u64)
        requires { now ≤ 2 ^ 63 }
        ensures { Keeps self.old (kept_happened (Flushes now) self.old) self.new }
    {
        let from = self.log.told().len();
        self.endpoint.flush(now, &mut self.log);
        self.begin_lists(from);
    }

    /// A datagram came.
    pub(crate) fn hear(&mut self, octets: &[u8], source: &Address, now: u64)
        requires generation { self.old.endpoint.state.generation < 2 ^ 63 }
        requires now { now ≤ 2 ^ 63 }
        ensures { Keeps self.old (with_done (heard_datagram (read_packet octets.now) self.old.endpoint.settings
            (secrets_of self.old.endpoint) now (address_of source.now) self.old.endpoint.state) self.old.given self.old)
            self.new }
    {
        let from = self.log.told().len();
        self.endpoint.hear(octets, source, now, &mut self.log);
        self.begin_lists(from);
    }

    /// The user sends a message; returns whether it was taken.
    pub(crate) fn send(&mut self, message: Message<'_>) -> bool
        ensures taken { result ≡ may_send (given_as message.entry) self.old.endpoint.state }
        ensures left { Keeps self.old (kept_happened (Sends (given_as message.entry)) self.old) self.new }
    {
        if !self.endpoint.send(message) {
            return false;
        }
        self.note(message);
        true
    }
}

impl Site {
    /// The user gave a message in the latest association.
    fn note(&mut self, message: Message<'_>)
        ensures { Keeps self.old (record self.old {
          given = with_last (text_given (given_as message.entry)) self.old.given;
        }) self.new }
    {
        if self.keep(message).is_err() {
            self.log.lose();
        }
    }

    /// The same, if there is memory for it.
    fn keep(&mut self, message: Message<'_>) -> Result<(), AllocError>
        ensures given { OnOk result (self.new ≡ record self.old {
          given = with_last (text_given (given_as message.entry)) self.old.given;
        }) }
        ensures rest { self.new ≡ record self.old { given = self.new.given } }
    {
        let text = Text::new(
            self.log.alloc(),
            message.stream,
            message.protocol,
            message.octets,
        )?;
        if let Some(mut latest) = self.given.pop() {
            latest.push(text)?;
            self.given.push(latest)?;
        }
        Ok(())
    }

    /// For each association that opened, by what was told from an index on, the user gives messages of its own.
    fn begin_lists(&mut self, from: usize)
        ensures { Keeps self.old (record self.old { given = opened_by self.old.given (drop from self.old.log.told) })
            self.new }
    {
        for i in from..self.log.told().len() {
            if self.is_opening(i) {
                self.begin_list();
            }
        }
    }

    /// Whether what was told at an index is Up.
    fn is_opening(&self, place: usize) -> bool
        ensures { result ≡ is_up_at self.now.log.told place }
    {
        match self.log.told().get(place) {
            Some(kept) => matches!(kept.what(), Entry::Up),
            None => false,
        }
    }

    /// The user may give messages of another association.
    fn begin_list(&mut self)
        ensures { Keeps self.old (record self.old { given = [] ∷ self.old.given }) self.new }
    {
        let alloc = self.log.alloc();
        if self.given.push(Messages::new(alloc)).is_err() {
            self.log.lose();
        }
    }
}
