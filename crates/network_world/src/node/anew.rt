//! A node that starts again, or gives up following the other end of a link; whether it is quiet; and books that begin
//! anew.

ghost use Rattle.std.specs.Prelude.{◌≡◌, ◌↔◌, IsTrue, IfOk, OnOk, OnErr};
ghost use Rattle.network_world.specs.KeptAnew.{IsNodeQuiet, node_begins_anew, node_gives_up, node_restarts};

use super::Node;
use crate::books::begin_anew;
use exchange::NoMemory;
use settings::{LinkId, Outcome, Settings};

impl Node {
    /// It starts again with these settings, and keeps its books. After NoMemory nothing has changed.
    pub(crate) fn restart(&mut self, settings: Settings) -> Result<Outcome, NoMemory>
        ensures outcome { IfOk result (λ outcome. outcome ≡ (node_restarts settings self.old).outcome) }
        ensures state { OnOk result (self.new ≡ (node_restarts settings self.old).left) }
        ensures unchanged { OnErr result (self.new ≡ self.old) }
    {
        self.site.restart(settings)?;
        Ok(Outcome::Handled)
    }

    /// It may not follow the other end of a link any more. Ignored where it might not.
    pub(crate) fn give_up(&mut self, link: LinkId) -> Outcome
        ensures outcome { result ≡ (node_gives_up link self.old).outcome }
        ensures state { self.new ≡ (node_gives_up link self.old).left }
    {
        let might = self.may_follow(link);
        self.site.give_up(link);
        if might {
            Outcome::Handled
        } else {
            Outcome::Ignored
        }
    }

    /// Its books begin anew.
    pub(crate) fn begin_anew(&mut self)
        ensures { self.new ≡ node_begins_anew self.old }
    {
        begin_anew(&mut self.books);
    }

    /// Whether each of its links may open, it may follow on none, and nothing is in Held.
    pub(crate) fn is_quiet(&self) -> bool
        ensures { IsTrue result ↔ IsNodeQuiet self.now }
    {
        self.site.do_links_rest() && self.site.holds_nothing()
    }
}
