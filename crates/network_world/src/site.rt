//! An exchange, and what is in flight to it.

mod anew;

ghost use Rattle.std.specs.Prelude.{◌≡◌, ◌<◌, false, ◌&&◌, nat_lt, length, option_to_list, slice_get, slice_index_or, IfOk, OnOk, OnErr};
ghost use Rattle.exchange_rules.specs.Exchange.{after, outcome_of, taken, wants_of};
ghost use Rattle.exchange_rules.specs.State.{FrameCame, Submitted};
ghost use Rattle.exchange.specs.Calls.{happened};
ghost use Rattle.exchange.specs.KeptQueues.{kept};
ghost use Rattle.exchange.specs.Views.{may_restart_at};
ghost use Rattle.pair_rules.specs.Pairs.{in_flight};
ghost use Rattle.network_world.specs.KeptSites.{behind_its, first_site, handed_in, has_link, newly_brought, newly_carried, site_doubles_status, site_happens, site_loses_status, site_may_follow, site_opens_first, site_opens_second, take_outcome, text_to_take, without_first};
ghost use Rattle.network_world.specs.Waiting.{kept_waiting};

use crate::bringing::rows_of;
use crate::counting::count_waiting;
use crate::flight::{
    Flight, clear_flight, double_in_flight, is_noted, next_in_flight, next_text, none_follows,
    note, nothing_in_flight, take_behind,
};
use crate::hearing::{Heard, hand_in, hand_over};
use exchange::{Event, Exchange, FrameText, NoMemory, Pick, Wants};
use sccp_relay::Titles;
use settings::{LinkId, Msu, Outcome, PointCode, Settings};
use std::alloc::Global;
use std::marker::Model;

/// An exchange, the link statuses and the User Data in flight to it on each link, and whether it may follow the other
/// end there. It has no books: who hands something in is told what came, and what that brought in.
pub(crate) struct Site {
    alloc: Global,
    exchange: Exchange,
    statuses: Vec<Flight>,
    user_data: Vec<Flight>,
    following: Vec<bool>,
}

// By hand, so that no proof above has what a site owns.
impl Drop for Site {
    fn drop(self) {
        let Site {
            alloc: _,
            exchange: _,
            statuses: _,
            user_data: _,
            following: _,
        } = self;
    }
}

impl Model for Site {
    ghost use Rattle.network_world.specs.KeptSites.{KeptSite};

    ghost Value = { KeptSite };

    ghost use Rattle.std.specs.Coded.{codes};
    ghost use Rattle.flow_hold.specs.Stored.{hold_set_code};
    ghost use Rattle.timers.specs.OneMap.{running_code};

    ghost coded = { Prim.hlevel (codes, hold_set_code, running_code) };

    ghost view = { λ site. record {
      exchange = site.exchange;
      incoming = record { statuses = site.statuses.items; user_data = site.user_data.items };
      following = site.following.items;
    } };
}

impl Site {
    /// A site with these settings, before anything was done there.
    pub(crate) fn boot(alloc: Global, settings: Settings) -> Result<Site, NoMemory>
        ensures { IfOk result (λ site. site ≡ first_site settings) }
    {
        let links = settings.link_count();
        let statuses = nothing_in_flight(alloc, links)?;
        let user_data = nothing_in_flight(alloc, links)?;
        let following = none_follows(alloc, links)?;
        let exchange = Exchange::boot(alloc, settings)?;
        Ok(Site {
            alloc,
            exchange,
            statuses,
            user_data,
            following,
        })
    }

    /// Its exchange.
    pub(crate) fn exchange(&self) -> &Exchange
        ensures { result.now ≡ self.now.exchange }
    {
        &self.exchange
    }

    /// Its settings.
    pub(crate) fn settings(&self) -> &Settings
        ensures { result.now ≡ self.now.exchange.settings }
    {
        self.exchange.settings()
    }

    /// Its point.
    pub(crate) fn point(&self) -> PointCode
        ensures { result ≡ self.now.exchange.settings.own }
    {
        self.settings().own()
    }

    /// Whether it may follow the other end on a link.
    pub(crate) fn may_follow(&self, link: LinkId) -> bool
        ensures { result ≡ slice_index_or self.now.following link false }
    {
        is_noted(&self.following, link)
    }

    /// What a link wants.
    pub(crate) fn wants(&self, link: LinkId) -> Wants
        ensures { result ≡ wants_of self.now.exchange link }
    {
        self.exchange.wants(link)
    }

    /// Whether a link may open as far as its changeover goes.
    pub(crate) fn may_restart(&self, link: LinkId) -> bool
        ensures { result ≡ may_restart_at self.now.exchange link }
    {
        self.exchange.may_restart(link)
    }

    /// Whether a link is there.
    pub(crate) fn has(&self, link: LinkId) -> bool
        ensures { result ≡ has_link link self.now.incoming }
    {
        link.index() < self.statuses.len() && link.index() < self.user_data.len()
    }

    /// How many user messages that a choice takes wait for another site.
    pub(crate) fn count_waiting<P: Pick>(&self, other: &Site, pick: &P) -> u128
        ensures { result ≡ kept_waiting (P.picks pick.now) self.now.exchange other.now.exchange }
    {
        count_waiting(&self.exchange, &other.exchange, pick)
    }

    /// The translation rows of its exchange, in a table.
    pub(crate) fn rows(&self) -> Result<Titles, NoMemory>
        ensures { IfOk result (λ rows. rows ≡ self.now.exchange.node.parts.titles) }
    {
        rows_of(self.alloc, &self.exchange)
    }
}

impl Site {
    /// Something happens to its exchange.
    pub(crate) fn happen(&mut self, event: &Event<'_>) -> Outcome
        ensures outcome { result ≡ (site_happens (happened event.now result) self.old).outcome }
        ensures state { self.new ≡ (site_happens (happened event.now result) self.old).left }
    {
        self.exchange.step(event)
    }

    /// A user part hands over a message.
    pub(crate) fn submit(&mut self, rows: &Titles, message: &Msu) -> Heard
        requires rows { rows.now ≡ self.old.exchange.node.parts.titles }
        ensures outcome { result.outcome ≡ outcome_of kept (Submitted message.now) self.old.exchange }
        ensures state { self.new ≡
            record self.old { exchange = after kept (Submitted message.now) self.old.exchange } }
        ensures brought { option_to_list result.brought ≡ handed_in message.now self.old.exchange }
    {
        hand_over(&mut self.exchange, rows, message)
    }

    /// A frame comes.
    pub(crate) fn hear(&mut self, rows: &Titles, link: LinkId, text: &FrameText) -> Heard
        requires rows { rows.now ≡ self.old.exchange.node.parts.titles }
        ensures outcome { result.outcome ≡ outcome_of kept (FrameCame link text.now) self.old.exchange }
        ensures state { self.new ≡
            record self.old { exchange = after kept (FrameCame link text.now) self.old.exchange } }
        ensures carried { option_to_list result.carried ≡ newly_carried link text.now self.old.exchange }
        ensures brought { option_to_list result.brought ≡ newly_brought link text.now self.old.exchange }
    {
        hand_in(&mut self.exchange, rows, link, text)
    }

    /// The next User Data in flight on a link, where there is some.
    pub(crate) fn next_data(&mut self, link: LinkId) -> Option<FrameText>
        ensures first { result ≡ slice_get (in_flight self.old.incoming.user_data link) 0 }
        ensures rest { self.new ≡ record self.old {
          incoming = record self.old.incoming { user_data = without_first result link self.old.incoming.user_data };
        } }
    {
        next_in_flight(&mut self.user_data, link)
    }

    /// The next link status in flight on a link, where there is one.
    pub(crate) fn next_status(&mut self, link: LinkId) -> Option<FrameText>
        ensures first { result ≡ slice_get (in_flight self.old.incoming.statuses link) 0 }
        ensures rest { self.new ≡ record self.old {
          incoming = record self.old.incoming { statuses = without_first result link self.old.incoming.statuses };
        } }
    {
        next_in_flight(&mut self.statuses, link)
    }

    /// The next link status in flight on a link is lost, where there is one.
    pub(crate) fn lose_status(&mut self, link: LinkId) -> Outcome
        ensures outcome { result ≡ (site_loses_status link self.old).outcome }
        ensures state { self.new ≡ (site_loses_status link self.old).left }
    {
        match next_in_flight(&mut self.statuses, link) {
            Some(_) => Outcome::Handled,
            None => Outcome::Ignored,
        }
    }

    /// The next link status in flight on a link comes twice, where there is one.
    pub(crate) fn double_status(&mut self, link: LinkId) -> Result<Outcome, NoMemory>
        ensures outcome { IfOk result (λ outcome. outcome ≡ (site_doubles_status link self.old).outcome) }
        ensures state { OnOk result (self.new ≡ (site_doubles_status link self.old).left) }
        ensures unchanged { OnErr result (self.new ≡ self.old) }
    {
        double_in_flight(&mut self.statuses, link)
    }
}

impl Site {
    /// The next frame of a link of another site's exchange is fetched for this one, by its own link. Requires that this
    /// is there.
    pub(crate) fn take_from(
        &mut self,
        other: &mut Site,
        link: LinkId,
        own_link: LinkId,
    ) -> Result<Outcome, NoMemory>
        requires statuses { own_link < length self.old.incoming.statuses }
        requires data { own_link < length self.old.incoming.user_data }
        ensures outcome { IfOk result (λ outcome. outcome ≡ take_outcome (text_to_take other.old.exchange link)) }
        ensures state { OnOk result (self.new ≡ record self.old {
          incoming = behind_its (text_to_take other.old.exchange link) own_link self.old.incoming;
        }) }
        ensures other { OnOk result (other.new ≡ record other.old { exchange = taken kept other.old.exchange link }) }
        ensures unchanged { OnErr result (self.new ≡ self.old) }
        ensures same_other { OnErr result (other.new ≡ other.old) }
    {
        let statuses = &mut self.statuses[own_link.index()];
        let user_data = &mut self.user_data[own_link.index()];
        take_behind(statuses, user_data, &mut other.exchange, link)
    }

    /// The next frame of a link is fetched, and goes elsewhere.
    pub(crate) fn take(&mut self, link: LinkId) -> Option<FrameText>
        ensures text { result ≡ text_to_take self.old.exchange link }
        ensures state { self.new ≡ record self.old { exchange = taken kept self.old.exchange link } }
    {
        next_text(&mut self.exchange, link)
    }

    /// A link opens before it does at the other end, and nothing is in flight to it.
    pub(crate) fn open_first(&mut self, link: LinkId)
        ensures { self.new ≡ site_opens_first link self.old }
    {
        self.exchange.step(&Event::AssociationUp(link));
        clear_flight(&mut self.statuses, link);
        clear_flight(&mut self.user_data, link);
        note(&mut self.following, link, false);
    }

    /// A link opened at the other end, and nothing is in flight to this one, which may follow.
    pub(crate) fn let_follow(&mut self, link: LinkId)
        ensures { self.new ≡ site_may_follow link self.old }
    {
        clear_flight(&mut self.statuses, link);
        clear_flight(&mut self.user_data, link);
        note(&mut self.following, link, true);
    }

    /// A link opens as it did at the other end, where it may follow and wants to.
    pub(crate) fn open_second(&mut self, link: LinkId) -> Outcome
        ensures outcome { result ≡ (site_opens_second link self.old).outcome }
        ensures state { self.new ≡ (site_opens_second link self.old).left }
    {
        match (self.wants(link), self.may_follow(link)) {
            (Wants::Open, true) => {
                self.exchange.step(&Event::AssociationUp(link));
                note(&mut self.following, link, false);
                Outcome::Handled
            }
            _ => Outcome::Ignored,
        }
    }
}
