//! The states of links as they were last seen, and for how long links and sets were unavailable.

ghost use Rattle.std.specs.Prelude.{◌≡◌};
ghost use Rattle.served_node.specs.NodeChanges.{is_available_in};

use crate::node_watch::NodeWatch;
use served_link::{ServiceStates, UnavailableTimes};
use settings::{LinkId, SetId, Settings};

impl NodeWatch {
    /// The links, as they were last seen.
    pub fn links(&self) -> &ServiceStates
        ensures { result.now ≡ self.now.links }
    {
        &self.links
    }

    /// For how long each link was unavailable.
    pub fn link_times(&self) -> &UnavailableTimes
        ensures { result.now ≡ self.now.link_times }
    {
        &self.link_times
    }

    /// For how long each set was unavailable.
    pub fn set_times(&self) -> &UnavailableTimes
        ensures { result.now ≡ self.now.set_times }
    {
        &self.set_times
    }

    /// Notes which links are available, so many milliseconds after the start.
    pub(super) fn time_links(&mut self, settings: &Settings, now_ms: u64) {
        for k in 0..settings.link_count() {
            let is_available = self.is_link_available(LinkId::new(k as u8));
            self.link_times.note(k, is_available, now_ms);
        }
    }

    /// Notes which sets are available, so many milliseconds after the start.
    pub(super) fn time_sets(&mut self, settings: &Settings, now_ms: u64) {
        for k in 0..settings.sets().len() {
            let is_available = self.is_set_available(settings, SetId::new(k as u8));
            self.set_times.note(k, is_available, now_ms);
        }
    }

    /// Whether a link was in service when it was last seen.
    pub(super) fn is_link_available(&self, link: LinkId) -> bool
        ensures { result ≡ is_available_in self.now.links link }
    {
        match self.links.link(link) {
            Some(seen) => seen.state.is_available(),
            None => false,
        }
    }
}
