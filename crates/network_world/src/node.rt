//! One node of a network.

mod anew;

ghost use Rattle.std.specs.Prelude.{◌≡◌, ◌<◌, false, slice_index_or, IfOk, OnOk, OnErr};
ghost use Rattle.exchange.specs.Calls.{happened};
ghost use Rattle.network_rules.specs.Networks.{first_node};
ghost use Rattle.pair_rules.specs.Pairs as pairs;
ghost use Rattle.network_world.specs.KeptNodes.{both_did, kept_node_of, node_did, node_happens, node_takes};
ghost use Rattle.network_world.specs.KeptOutside.{node_hears_outside};
ghost use Rattle.network_world.specs.KeptSites.{text_to_take};
ghost use Rattle.network_world.specs.Waiting.{kept_waiting};
ghost use Rattle.network_world.specs.Told.{doing_told};

use crate::arrival::Arrival;
use crate::books::{Books, book_frame, book_submission, make_room};
use crate::doing::{Doing, Reach};
use crate::site::Site;
use exchange::{Event, Exchange, FrameText, NoMemory, Order, Pick, Wants};
use settings::{LinkId, Msu, Outcome, PointCode, Settings};
use std::alloc::Global;
use std::marker::Model;

/// One node: its site, and its books since it was booted.
pub(crate) struct Node {
    site: Site,
    books: Books,
}

// By hand, so that no proof above has what a node owns.
impl Drop for Node {
    fn drop(self) {
        let Node { site: _, books: _ } = self;
    }
}

impl Model for Node {
    ghost use Rattle.network_world.specs.KeptNodes.{KeptNode};

    ghost Value = { KeptNode };

    ghost use Rattle.std.specs.Coded.{codes};
    ghost use Rattle.flow_hold.specs.Stored.{hold_set_code};
    ghost use Rattle.timers.specs.OneMap.{running_code};

    ghost coded = { Prim.hlevel (codes, hold_set_code, running_code) };

    ghost view = { λ node. record {
      exchange = node.site.exchange;
      incoming = node.site.incoming;
      following = node.site.following;
      accepted = node.books.accepted.items;
      arrived = node.books.arrived.items;
      entered = node.books.entered.items;
      refused = node.books.refused.items;
    } };
}

impl Node {
    /// A node with these settings, before anything was done at it.
    pub(crate) fn boot(alloc: Global, settings: Settings) -> Result<Node, NoMemory>
        ensures { IfOk result (λ node. node ≡ kept_node_of (first_node settings)) }
    {
        let site = Site::boot(alloc, settings)?;
        Ok(Node {
            site,
            books: Books {
                accepted: Vec::new(alloc),
                arrived: Vec::new(alloc),
                entered: Vec::new(alloc),
                refused: Vec::new(alloc),
            },
        })
    }

    /// Its exchange.
    pub(crate) fn exchange(&self) -> &Exchange
        ensures { result.now ≡ self.now.exchange }
    {
        self.site.exchange()
    }

    /// Its settings.
    pub(crate) fn settings(&self) -> &Settings
        ensures { result.now ≡ self.now.exchange.settings }
    {
        self.site.settings()
    }

    /// Its point.
    pub(crate) fn point(&self) -> PointCode
        ensures { result ≡ self.now.exchange.settings.own }
    {
        self.site.point()
    }

    /// All messages that it took in.
    pub(crate) fn accepted(&self) -> &[Msu]
        ensures { result.now ≡ self.now.accepted }
    {
        self.books.accepted.as_slice()
    }

    /// All that came to it.
    pub(crate) fn arrived(&self) -> &[Arrival]
        ensures { result.now ≡ self.now.arrived }
    {
        self.books.arrived.as_slice()
    }

    /// Of the messages that it took in, those that entered the network here.
    pub(crate) fn entered(&self) -> &[Msu]
        ensures { result.now ≡ self.now.entered }
    {
        self.books.entered.as_slice()
    }

    /// The user messages for other points that came and were refused.
    pub(crate) fn refused(&self) -> &[Msu]
        ensures { result.now ≡ self.now.refused }
    {
        self.books.refused.as_slice()
    }

    /// Whether it may follow the other end of a link.
    pub(crate) fn may_follow(&self, link: LinkId) -> bool
        ensures { result ≡ slice_index_or self.now.following link false }
    {
        self.site.may_follow(link)
    }

    /// How many user messages that a choice takes wait for another node.
    pub(crate) fn count_waiting<P: Pick>(&self, other: &Node, pick: &P) -> u128
        ensures { result ≡ kept_waiting (P.picks pick.now) self.now.exchange other.now.exchange }
    {
        self.site.count_waiting(&other.site, pick)
    }
}

impl Node {
    /// Does what is done at this node alone; a fetch and a link that opens first do nothing. After NoMemory nothing has
    /// changed.
    pub(crate) fn act(&mut self, what: Doing) -> Result<Outcome, NoMemory>
        ensures outcome { IfOk result (λ outcome. outcome ≡ (node_did (doing_told what outcome) self.old).outcome) }
        ensures state { IfOk result (λ outcome. self.new ≡ (node_did (doing_told what outcome) self.old).left) }
        ensures unchanged { OnErr result (self.new ≡ self.old) }
    {
        match what {
            Doing::Submit(message) => self.submit(message),
            Doing::Deliver(link) => self.deliver(link),
            Doing::DeliverStatus(link) => self.deliver_status(link),
            Doing::LoseStatus(link) => Ok(self.site.lose_status(link)),
            Doing::DoubleStatus(link) => self.site.double_status(link),
            Doing::Lose(link) => Ok(self.happen(&Event::AssociationDown(link))),
            Doing::Tick => Ok(self.happen(&Event::Tick)),
            Doing::Activate { link, emergency } => {
                Ok(self.happen(&Event::Order(Order::Activate { link, emergency })))
            }
            Doing::Deactivate(link) => Ok(self.happen(&Event::Order(Order::Deactivate(link)))),
            Doing::Release(link) => Ok(self.happen(&Event::Order(Order::Release(link)))),
            Doing::AddTitle(row) => Ok(self.happen(&Event::Order(Order::AddTitle(row)))),
            Doing::SetTitle(row) => Ok(self.happen(&Event::Order(Order::SetTitle(row)))),
            Doing::RemoveTitle(key, digits) => {
                Ok(self.happen(&Event::Order(Order::RemoveTitle(key, digits))))
            }
            Doing::OpenSecond(link) => Ok(self.site.open_second(link)),
            Doing::Take(_) | Doing::OpenFirst(_) => Ok(Outcome::Ignored),
        }
    }

    /// Something happens to its exchange.
    pub(crate) fn happen(&mut self, event: &Event<'_>) -> Outcome
        ensures outcome { result ≡ (node_happens (happened event.now result) self.old).outcome }
        ensures state { self.new ≡ (node_happens (happened event.now result) self.old).left }
    {
        self.site.happen(event)
    }

    /// A user part hands over a message.
    fn submit(&mut self, message: Msu) -> Result<Outcome, NoMemory>
        ensures outcome { IfOk result (λ outcome. outcome ≡ (node_did (pairs.Submits message) self.old).outcome) }
        ensures state { OnOk result (self.new ≡ (node_did (pairs.Submits message) self.old).left) }
        ensures unchanged { OnErr result (self.new ≡ self.old) }
    {
        let rows = self.site.rows()?;
        make_room(&mut self.books)?;
        let heard = self.site.submit(&rows, &message);
        book_submission(&mut self.books, &heard);
        Ok(heard.outcome)
    }

    /// The next User Data in flight on a link comes, where there is some.
    fn deliver(&mut self, link: LinkId) -> Result<Outcome, NoMemory>
        ensures outcome { IfOk result (λ outcome. outcome ≡ (node_did (pairs.Delivers link) self.old).outcome) }
        ensures state { OnOk result (self.new ≡ (node_did (pairs.Delivers link) self.old).left) }
        ensures unchanged { OnErr result (self.new ≡ self.old) }
    {
        let rows = self.site.rows()?;
        make_room(&mut self.books)?;
        let Some(text) = self.site.next_data(link) else {
            return Ok(Outcome::Ignored);
        };
        let heard = self.site.hear(&rows, link, &text);
        book_frame(&mut self.books, self.site.settings(), link, &heard);
        Ok(heard.outcome)
    }

    /// The next link status in flight on a link comes, where there is one.
    fn deliver_status(&mut self, link: LinkId) -> Result<Outcome, NoMemory>
        ensures outcome { IfOk result (λ outcome. outcome ≡ (node_did (pairs.DeliversStatus link) self.old).outcome) }
        ensures state { OnOk result (self.new ≡ (node_did (pairs.DeliversStatus link) self.old).left) }
        ensures unchanged { OnErr result (self.new ≡ self.old) }
    {
        let rows = self.site.rows()?;
        make_room(&mut self.books)?;
        let Some(text) = self.site.next_status(link) else {
            return Ok(Outcome::Ignored);
        };
        let heard = self.site.hear(&rows, link, &text);
        book_frame(&mut self.books, self.site.settings(), link, &heard);
        Ok(heard.outcome)
    }

    /// A frame comes by a link that leads out of the network.
    pub(crate) fn hear_outside(
        &mut self,
        link: LinkId,
        text: &FrameText,
    ) -> Result<Outcome, NoMemory>
        ensures outcome { IfOk result (λ outcome. outcome ≡ (node_hears_outside link text.now self.old).outcome) }
        ensures state { OnOk result (self.new ≡ (node_hears_outside link text.now self.old).left) }
        ensures unchanged { OnErr result (self.new ≡ self.old) }
    {
        let rows = self.site.rows()?;
        make_room(&mut self.books)?;
        let heard = self.site.hear(&rows, link, text);
        book_frame(&mut self.books, self.site.settings(), link, &heard);
        Ok(heard.outcome)
    }

    /// The next frame of a link is fetched, and is in flight to no node.
    pub(crate) fn take(&mut self, link: LinkId) -> Option<FrameText>
        ensures text { result ≡ text_to_take self.old.exchange link }
        ensures state { self.new ≡ (node_takes link self.old).left }
    {
        self.site.take(link)
    }
}

/// Does what reaches the other end of a link, which is at the far node.
pub(crate) fn reach(
    what: Reach,
    near: &mut Node,
    far: &mut Node,
    link: LinkId,
    other: LinkId,
) -> Result<Outcome, NoMemory>
    ensures outcome { IfOk result (λ outcome. outcome ≡ (both_did what link other near.old far.old).outcome) }
    ensures near { OnOk result (near.new ≡ (both_did what link other near.old far.old).near) }
    ensures far { OnOk result (far.new ≡ (both_did what link other near.old far.old).far) }
    ensures same_near { OnErr result (near.new ≡ near.old) }
    ensures same_far { OnErr result (far.new ≡ far.old) }
{
    match what {
        Reach::Fetch => fetch(near, far, link, other),
        Reach::Open => Ok(open_first(near, far, link, other)),
    }
}

/// The next frame of a link of the near node is fetched, and is in flight to the far one by its own link. Ignored where
/// that isn't there. After NoMemory nothing has changed.
fn fetch(near: &mut Node, far: &mut Node, link: LinkId, other: LinkId) -> Result<Outcome, NoMemory>
    ensures outcome { IfOk result (λ outcome. outcome ≡ (both_did Reach.Fetch link other near.old far.old).outcome) }
    ensures near { OnOk result (near.new ≡ (both_did Reach.Fetch link other near.old far.old).near) }
    ensures far { OnOk result (far.new ≡ (both_did Reach.Fetch link other near.old far.old).far) }
    ensures same_near { OnErr result (near.new ≡ near.old) }
    ensures same_far { OnErr result (far.new ≡ far.old) }
{
    if !far.site.has(other) {
        return Ok(Outcome::Ignored);
    }
    far.site.take_from(&mut near.site, link, other)
}

/// A link opens at the near node, where that wants it to, and where it may open at the far node too, which may then
/// follow by its own link.
fn open_first(near: &mut Node, far: &mut Node, link: LinkId, other: LinkId) -> Outcome
    ensures outcome { result ≡ (both_did Reach.Open link other near.old far.old).outcome }
    ensures near { near.new ≡ (both_did Reach.Open link other near.old far.old).near }
    ensures far { far.new ≡ (both_did Reach.Open link other near.old far.old).far }
{
    match (near.site.wants(link), far.site.may_restart(other)) {
        (Wants::Open, true) => {
            near.site.open_first(link);
            far.site.let_follow(other);
            Outcome::Handled
        }
        _ => Outcome::Ignored,
    }
}
