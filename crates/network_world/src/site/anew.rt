//! A site that starts again, or gives up following the other end of a link; and whether it is quiet.

ghost use Rattle.std.specs.Prelude.{◌≡◌, ◌<◌, ◌↔◌, ℕ, [], true, false, IsTrue, OnOk, OnErr, length};
ghost use Rattle.std.specs.Prelude.{slice_index_or, slice_set};
ghost use Rattle.exchange.specs.KeptQueues.{kept};
ghost use Rattle.exchange.specs.Views.{may_restart_at};
ghost use Rattle.network_world.specs.KeptSites.{first_site};

use super::Site;
use crate::flight::note;
use exchange::NoMemory;
use settings::{LinkId, Settings};

impl Site {
    /// It starts again with these settings: nothing is in flight to it, and it may follow on no link. After NoMemory
    /// nothing has changed.
    pub(crate) fn restart(&mut self, settings: Settings) -> Result<(), NoMemory>
        ensures state { OnOk result (self.new ≡ first_site settings) }
        ensures unchanged { OnErr result (self.new ≡ self.old) }
    {
        *self = Site::boot(self.alloc, settings)?;
        Ok(())
    }

    /// It may not follow the other end of a link any more.
    pub(crate) fn give_up(&mut self, link: LinkId)
        ensures { self.new ≡ record self.old { following = slice_set self.old.following link false } }
    {
        note(&mut self.following, link, false);
    }

    /// Whether each of its links may open, and it may follow on none.
    pub(crate) fn do_links_rest(&self) -> bool
        ensures { IsTrue result ↔ ((link : ℕ) → link < length self.now.exchange.settings.links →
            (may_restart_at self.now.exchange link ≡ true) × (slice_index_or self.now.following link false ≡ false)) }
    {
        let links = self.settings().link_count() as u8;
        for link in 0..links {
            if !self.does_link_rest(LinkId::new(link)) {
                return false;
            }
        }
        true
    }

    /// Whether one of them may open, and it may not follow there.
    fn does_link_rest(&self, link: LinkId) -> bool
        ensures { IsTrue result ↔ (may_restart_at self.now.exchange link ≡ true)
            × (slice_index_or self.now.following link false ≡ false) }
    {
        self.may_restart(link) && !self.may_follow(link)
    }

    /// Whether nothing is in Held.
    pub(crate) fn holds_nothing(&self) -> bool
        ensures { IsTrue result ↔ (kept.held self.now.exchange.node.queues ≡ []) }
    {
        self.exchange.count_held() == 0
    }
}
