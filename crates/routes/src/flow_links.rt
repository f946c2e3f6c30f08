//! The links of the flows to one destination.

ghost use Rattle.std.specs.Prelude.{◌≡◌, ◌<◌, None, slice_index_or};
ghost use Rattle.routes.specs.Routes.{first_serving};
ghost use Rattle.signalling_types.specs.declared.limits.TheConstants.Limits.{SELECTIONS};
ghost use Rattle.routes.specs.Table.{links_of_group};

use crate::LinkGroup;
use signalling_types::{Limits, LinkId, SetId, Sls};
use std::marker::Model;

/// The links of the flows to one destination, by their selections.
#[derive(Drop)]
pub(crate) struct FlowLinks {
    links: [Option<LinkId>; Limits::SELECTIONS],
}

impl Model for FlowLinks {
    ghost use Rattle.std.specs.Prelude.{ℕ, List, Option};

    ghost Value = { List (Option ℕ) };

    ghost use Rattle.routes.specs.Room.{flow_links_in, HasPlaces};

    ghost view = { flow_links_in };

    ghost invariant = { HasPlaces };
}

impl FlowLinks {
    /// The links of the flows that take these sets of a group: the first in service that each selection tries.
    pub fn over(group: &LinkGroup, in_service: &[bool], sets: &[SetId]) -> FlowLinks
        ensures { result ≡ links_of_group in_service.now sets.now group.now }
    {
        FlowLinks {
            links: links_of_group(group, in_service, sets),
        }
    }

    /// The link of the flow of this selection.
    pub fn link(&self, sls: Sls) -> Option<LinkId>
        ensures { result ≡ slice_index_or self.now sls None }
    {
        self.links[usize::from(sls.number())]
    }
}

/// The link that each selection takes by these sets of a group.
fn links_of_group(
    group: &LinkGroup,
    in_service: &[bool],
    sets: &[SetId],
) -> [Option<LinkId>; Limits::SELECTIONS]
    ensures { result ≡ links_of_group in_service.now sets.now group.now }
{
    let mut links = [None; Limits::SELECTIONS];
    for selection in 0..Limits::SELECTIONS {
        links[selection] = first_serving(group, selection as u8, in_service, sets);
    }
    links
}

/// The first link of a group that this selection tries, of those in service in these sets.
fn first_serving(
    group: &LinkGroup,
    selection: u8,
    in_service: &[bool],
    sets: &[SetId],
) -> Option<LinkId>
    requires { selection < SELECTIONS }
    ensures { result ≡ first_serving selection in_service.now sets.now group.now }
{
    match Sls::new(selection) {
        Some(sls) => group.first_serving(sls, in_service, sets),
        None => None,
    }
}
