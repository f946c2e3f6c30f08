//! Two endpoints, and the network between them.

ghost use Rattle.std.specs.Prelude.{◌≡◌, ◌<◌, ◌≤◌, ◌^◌, true, false, [], reverse, IfOk};
ghost use Rattle.sctp_rules.specs.WrittenPackets.{HasPorts};
ghost use Rattle.sctp_ends.specs.Worlds as worlds;
ghost use Rattle.sctp_ends.specs.Theorems.{Delivers, AreAssociated};
ghost use Rattle.sctp_ends.specs.Told.{told_by};
ghost use Rattle.sctp_bundling.specs.Settings.{settings_of};
ghost use Rattle.sctp_world.specs.Kept.{Keeps, first_kept, kept_at, other_kept, is_whole};
ghost use Rattle.sctp_world.specs.Doing.{is_done, kept_did, HasNumbers, MayCome, site_at, other_site};
ghost use Rattle.sctp_world.specs.Stands.{StandsFor, GoesOn, make_of, first_of};

use crate::log::{Datagram, Kept};
use crate::messages::Messages;
use crate::site::Site;
use crate::step::{Doing, End};
use sctp_endpoint::Settings;
use sctp_endpoint::endpoint::KEY_OCTETS;
use std::alloc::{AllocError, Global};
use std::marker::Model;

/// The latest time, in milliseconds.
const LATEST: u64 = 1 << 63;

/// Two endpoints, all datagrams that either ever put out, all that their users were told, and all that they gave.
///
/// The network is no more than these datagrams: any of them may come to the other end, at any moment, any number of
/// times, in any order, or never. It stands for two endpoints of the rules, as steps from two new ones lead to them
/// (`StandsFor`). `new` makes it so, and each `act` keeps it so, unless a datagram comes that is too old (`MayCome`),
/// or memory runs out for what is put out, told or given. Then it is no longer whole (`is_whole`), and only its
/// endpoints go on by their rules. No contract says that it is whole as long as there is memory, since none can speak
/// of memory.
#[derive(Drop)]
pub struct World {
    near: Site,
    far: Site,
}

impl Model for World {
    ghost use Rattle.sctp_world.specs.Kept.{KeptWorld};

    ghost Value = { KeptWorld };

    ghost view = { λ world. record { near = world.near; far = world.far } };
}

/// What an endpoint is made of: its settings, and the keys under which it draws tags and signs cookies.
#[derive(Clone, Copy)]
pub struct Making {
    /// Its settings.
    pub settings: Settings,
    /// The key of its tags.
    pub tag_key: [u8; KEY_OCTETS],
    /// The key of its cookies.
    pub cookie_key: [u8; KEY_OCTETS],
}

impl World {
    /// Two new endpoints, and nothing that was put out. The error means that memory ran out.
    pub fn new(alloc: Global, near: Making, far: Making) -> Result<World, AllocError>
        requires near_initial { near.settings.bounds.initial ≤ near.settings.bounds.most }
        requires near_least { near.settings.bounds.least ≤ near.settings.bounds.most }
        requires near_most { near.settings.bounds.most ≤ 2 ^ 24 }
        requires far_initial { far.settings.bounds.initial ≤ far.settings.bounds.most }
        requires far_least { far.settings.bounds.least ≤ far.settings.bounds.most }
        requires far_most { far.settings.bounds.most ≤ 2 ^ 24 }
        ensures kept { IfOk result (λ world. world ≡ record {
          near = first_kept (settings_of near.settings) near.tag_key near.cookie_key;
          far = first_kept (settings_of far.settings) far.tag_key far.cookie_key;
        }) }
        // It stands for two new endpoints of the rules.
        ensures first { IfOk result (λ world. StandsFor world (first_of world)) }
    {
        has_ports(&near.settings);
        has_ports(&far.settings);
        Ok(World {
            near: Site::new(alloc, near.settings, near.tag_key, near.cookie_key)?,
            far: Site::new(alloc, far.settings, far.tag_key, far.cookie_key)?,
        })
    }

    /// Does something at an end, at a time in milliseconds. Returns whether it was done: not if the time is over 2^63
    /// ms, if the endpoint doesn't last (`Endpoint::lasts`), or if there is no such datagram.
    pub fn act(&mut self, end: End, what: Doing<'_>, now: u64) -> bool
        ensures answer { result ≡ is_done what.entry now (other_kept end self.old) (kept_at end self.old) }
        // What it does is the rule's: at the endpoint in any case, and in all that is kept of it if that is whole.
        ensures done { result ≡ true → Keeps (kept_at end self.old) (kept_did what.entry now (other_kept end self.old)
            (kept_at end self.old)) (kept_at end self.new) }
        ensures other { other_kept end self.new ≡ other_kept end self.old }
        ensures unchanged { result ≡ false → self.new ≡ self.old }
        // What isn't whole never is again.
        ensures whole { is_whole self.new ≡ true → is_whole self.old ≡ true }
        // It is a step of each world that it stood for, if it is whole, and a datagram that comes isn't too old.
        ensures goes_on { (w : worlds.World) → StandsFor self.old w → result ≡ true → is_whole self.new ≡ true →
            MayCome what.entry (other_kept end self.old) (other_site end w) → GoesOn self.new w }
    {
        has_numbers(what);
        match end {
            End::Near => act_at(&mut self.near, &self.far, what, now),
            End::Far => act_at(&mut self.far, &self.near, what, now),
        }
    }

    /// Whether memory never ran out for what was put out, told or given.
    pub fn is_whole(&self) -> bool
        ensures { result ≡ is_whole self.now }
    {
        self.near.is_whole() && self.far.is_whole()
    }

    /// All datagrams that an end ever put out, in order, if it is whole.
    pub fn sent(&self, end: End) -> &[Datagram]
        ensures { result.now ≡ (kept_at end self.now).log.sent }
    {
        self.site(end).sent()
    }

    /// All that the user of an end was told, in order.
    pub fn told(&self, end: End) -> &[Kept]
        ensures told { (w : worlds.World) → StandsFor self.now w → result.now ≡ (site_at end w).told }
        // What was told in an association is the beginning of what the other user gave in one that is matched with no
        // other: each message once, in order, whole.
        ensures delivers { (w : worlds.World) → StandsFor self.now w →
            Delivers (told_by [] result.now) (other_site end w).given }
    {
        self.site(end).told()
    }

    /// All that the user of an end gave in each association, the first one first.
    pub fn given(&self, end: End) -> &[Messages]
        ensures { (w : worlds.World) → StandsFor self.now w → reverse result.now ≡ (site_at end w).given }
    {
        self.site(end).given()
    }

    /// The associations of both ends have the laws of `sctp_ends`: no two of an end share a tag, no more is confirmed
    /// than came, and if one opens, the other end waits for it or has it. Does nothing.
    pub fn associations_have_the_laws(&self)
        ensures { (w : worlds.World) → StandsFor self.now w →
            AreAssociated (make_of self.now.near) (make_of self.now.far) w }
    {}

    fn site(&self, end: End) -> &Site
        ensures { result.now ≡ kept_at end self.now }
    {
        match end {
            End::Near => &self.near,
            End::Far => &self.far,
        }
    }
}

/// The ports of settings have 16 bits. Does nothing.
fn has_ports(settings: &Settings)
    ensures { HasPorts (settings_of settings.now) }
{
    has_16_bits(settings.own_port);
    has_16_bits(settings.far_port);
}

/// A port has 16 bits. Does nothing.
fn has_16_bits(port: u16)
    ensures { port < 2 ^ 16 }
{}

/// The numbers of a message have as many bits as on the wire. Does nothing.
fn has_numbers(what: Doing<'_>)
    ensures { HasNumbers what.entry }
{
    if let Doing::Send(message) = what {
        let _protocol = message.protocol;
    }
}

/// Does something at an endpoint, given the datagrams that the other one put out.
fn act_at(site: &mut Site, other: &Site, what: Doing<'_>, now: u64) -> bool
    ensures answer { result ≡ is_done what.entry now other.now site.old }
    ensures did { result ≡ true → Keeps site.old (kept_did what.entry now other.now site.old) site.new }
    ensures unchanged { result ≡ false → site.new ≡ site.old }
    ensures whole { site.new.log.is_whole ≡ true → site.old.log.is_whole ≡ true }
{
    if now > LATEST || !site.lasts() {
        return false;
    }
    match what {
        Doing::Open(is_active) => site.open(is_active, now),
        Doing::Send(message) => {
            let _taken = site.send(message);
        }
        Doing::Abort => site.abort(),
        Doing::ShutDown => site.shut_down(now),
        Doing::Tick => site.tick(now),
        Doing::Flush => site.flush(now),
        Doing::Hear(place, source) => {
            if place >= other.sent().len() {
                return false;
            }
            site.hear(other.octets_at(place), &source, now);
        }
    }
    true
}
