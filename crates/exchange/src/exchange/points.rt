//! What the settings say about links, about the points that sets lead to, and about destinations.

ghost use Rattle.std.specs.Prelude.{◌≡◌, ◌<◌, length, IfOk};
ghost use Rattle.settings.specs.Readings.{destination_place, set_place};
ghost use Rattle.exchange_rules.specs.Routing as rule;
ghost use Rattle.exchange_rules.specs.Routing.{entry_of};

use super::Exchange;
use settings::{Cause, Limits, LinkId, LinkRow, Outcome, PointCode, SetId, Sls};

impl Exchange {
    /// The row of a link in the settings.
    pub(super) fn row_of(&self, link: LinkId) -> &LinkRow
        requires { link < length self.now.settings.links }
        ensures row { result.now ≡ entry_of self.now.settings link }
        ensures set { (entry_of self.now.settings link).set < length self.now.settings.sets }
    {
        &self.settings.links()[link.index()]
    }

    pub(super) fn set_of(&self, link: LinkId) -> SetId
        requires { link < length self.now.settings.links }
        ensures set { result ≡ rule.set_of self.now.settings link }
        ensures fits { result < length self.now.settings.sets }
    {
        self.row_of(link).set()
    }

    /// The signalling link code of a link.
    pub(super) fn code_of(&self, link: LinkId) -> Sls
        requires { link < length self.now.settings.links }
        ensures { result ≡ (entry_of self.now.settings link).slc }
    {
        let Some(code) = Sls::new(self.row_of(link).slc()) else {
            unreachable!()
        };
        code
    }

    /// The point that a link leads to.
    pub(super) fn peer_of(&self, link: LinkId) -> PointCode
        requires { link < length self.now.settings.links }
        ensures { result ≡ rule.peer_of self.now.settings link }
    {
        self.adjacent_of(self.set_of(link))
    }

    /// The point that the links of a set lead to.
    pub(super) fn adjacent_of(&self, set: SetId) -> PointCode
        requires { set < length self.now.settings.sets }
        ensures { result ≡ rule.adjacent_of self.now.settings set }
    {
        self.settings.sets()[set.index()].adjacent()
    }

    pub(super) fn point_of(&self, destination: usize) -> PointCode
        requires { destination < length self.now.settings.destinations }
        ensures { result ≡ rule.point_of self.now.settings destination }
    {
        self.settings.destinations()[destination].point()
    }

    /// The number of a destination, as the names of timers have it.
    pub(super) fn number_of(&self, destination: usize) -> u16
        requires { destination < length self.now.settings.destinations }
        ensures { result ≡ destination }
    {
        prove!(self.settings.destinations().len() <= Limits::DESTINATIONS);
        destination as u16
    }

    /// The route that an adjacent point's message is about: the set that leads to that point, and the destination.
    /// Refused UnknownDestination if it is about no destination; ignored if no set leads to the point.
    pub(super) fn route_about(
        &self,
        point: PointCode,
        about: PointCode,
    ) -> Result<(SetId, usize), Outcome>
        ensures route { result ≡
            rule.route_about (set_place self.now.settings point) (destination_place self.now.settings about) }
        ensures set { IfOk result (λ route. route.0 < length self.now.settings.sets) }
        ensures destination { IfOk result (λ route. route.1 < length self.now.settings.destinations) }
    {
        let Some(destination) = self.settings.destination(about) else {
            return Err(Outcome::Refused(Cause::UnknownDestination));
        };
        match self.settings.set_to(point) {
            Some(set) => Ok((set, destination)),
            None => Err(Outcome::Ignored),
        }
    }
}
