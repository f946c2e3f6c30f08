//! A link set.

ghost use Rattle.std.specs.Prelude.{◌≡◌, ◌+◌, ◌<◌, ◌≤◌, ◌++◌, length, position, IfSome};
ghost use Rattle.std.specs.Option.{option_to_list};
ghost use Rattle.arrayvec.specs.ArrayVec.{array_vec_len};
ghost use Rattle.routes.specs.Routes.{has_code, has_member, link_with, links_of, has_link, is_in_service};

use arrayvec::ArrayVec;
use settings::LinkRow;
use signalling_types::{Limits, LinkId, SetId};
use std::marker::Model;

/// The links of one link set, at most 16, in the order of their signalling link codes (Q.704 §15.2).
#[derive(Drop)]
pub struct LinkSet {
    links: ArrayVec<LinkId, { Limits::LINKS_PER_SET }>,
}

impl Model for LinkSet {
    ghost use Rattle.std.specs.Prelude.{ℕ, List};

    ghost Value = { List ℕ };

    ghost view = { λ s. s.links.items };
}

impl LinkSet {
    /// The links of this set among the links of a node. Of two with the same code it has the first.
    #[tactic(auto, using(crate::proofs::Members::steps))]
    pub fn of(links: &[LinkRow], set: SetId) -> LinkSet
        requires { length links.now ≤ Limits.LINKS }
        ensures { result ≡ links_of links.now set }
    {
        let mut members = ArrayVec::new();
        for slc in 0..Limits::LINKS_PER_SET as u8 {
            add(&mut members, link_with(links, set, slc));
        }
        LinkSet { links: members }
    }

    /// The links, in the order of their codes.
    pub fn links(&self) -> &[LinkId]
        ensures links { result.now ≡ self.now }
        ensures fits { length self.now ≤ Limits.LINKS_PER_SET }
    {
        self.links.as_slice()
    }

    /// Whether a link is of this set.
    pub fn has(&self, link: LinkId) -> bool
        ensures { result ≡ has_member link self.now }
    {
        self.links
            .iter()
            .any(|member| member.index() == link.index())
    }

    /// Whether some link of the set is in service.
    pub fn has_link(&self, in_service: &[bool]) -> bool
        ensures { result ≡ has_link in_service.now self.now }
    {
        self.links
            .iter()
            .any(|member| is_in_service(in_service, *member))
    }
}

/// Puts a link after the others, if there is one.
fn add(links: &mut ArrayVec<LinkId, { Limits::LINKS_PER_SET }>, link: Option<LinkId>)
    requires { array_vec_len links.old < Limits.LINKS_PER_SET }
    ensures links { links.new.items ≡ links.old.items ++ option_to_list link }
    ensures count { array_vec_len links.new ≤ array_vec_len links.old + 1 }
{
    if let Some(link) = link {
        links.push(link);
    }
}

/// The link of a set that has this code.
fn link_with(links: &[LinkRow], set: SetId, slc: u8) -> Option<LinkId>
    requires { length links.now ≤ Limits.LINKS }
    ensures { result ≡ link_with links.now set slc }
{
    match place_of(links, set, slc) {
        Some(place) => Some(LinkId::new(place as u8)),
        None => None,
    }
}

/// The place of the first link of a set that has this code.
fn place_of(links: &[LinkRow], set: SetId, slc: u8) -> Option<usize>
    ensures place { result ≡ position (has_code set slc) links.now }
    ensures fits { IfSome result (λ place. place < length links.now) }
{
    links.iter().position(|link| link.set().index() == set.index() && link.slc() == slc)
}

/// Whether a link is in service.
pub(crate) fn is_in_service(in_service: &[bool], link: LinkId) -> bool
    ensures { result ≡ is_in_service in_service.now link }
{
    match in_service.get(link.index()) {
        Some(is) => *is,
        None => false,
    }
}
