//! The point that a node is, and the points that it reaches.

ghost use Rattle.std.specs.Prelude.{◌≡◌, ◌&&◌, not, ℕ, Bool, Ok};
ghost use Rattle.sccp_relay.specs.Points.{is_backup_open, is_barred, is_open, is_out, is_reached, is_sender, is_shut, point_by, unless_barred};
ghost use Rattle.sccp_relay.specs.Relay.{is_equipped};
ghost use Rattle.sccp_relay.specs.Values.{own_value};

use crate::subsystem::Subsystem;
use crate::titles::Titles;
use settings::{TitleRoute, TitleRow};
use signalling_types::{Cause, PointCode, Sls};

/// The number of SCCP management (Q.713 §3.4.2.2).
pub(crate) const MANAGEMENT: u8 = 1;

/// The points that the links of a node lead to.
pub trait Ways {
    /// Whether a link leads to a point, for messages of a link selection.
    ghost leads: { Self → ℕ → ℕ → Bool };

    /// Whether a link leads to this point, for messages of this link selection (Q.704 §2.3).
    fn lead_to(&self, point: PointCode, sls: Sls) -> bool
        ensures { result ≡ leads self.now point sls };
}

/// The point that a node is, the subsystems that are there, what it does for SCCP, and where its links lead.
#[derive(Clone, Copy)]
pub struct Own<'a, W> {
    /// Its point code.
    pub point: PointCode,
    /// The numbers of its subsystems.
    pub subsystems: &'a [u8],
    /// Whether extended unitdata, XUDT and XUDTS, are relayed (Q.713 §4.18, §4.19).
    pub extended: bool,
    /// Whether tests of its subsystems are answered (Q.714 §5.3.4). SCCP management, subsystem 1, is here then.
    pub answers_tests: bool,
    /// Whether it is heard which subsystems other points say to be prohibited and allowed (Q.714 §5.3.2, §5.3.3).
    pub hears_statuses: bool,
    /// The points that its links lead to. It is asked only of a row with a backup or whose subsystem is prohibited,
    /// and of each prohibited subsystem as a tick passes.
    pub ways: W,
}

impl<W: Ways> Own<'_, W> {
    /// Whether a subsystem of this number is here; without a number none is. SCCP management is, where it answers
    /// tests.
    pub(crate) fn is_equipped(&self, ssn: Option<u8>) -> bool
        ensures { result ≡ is_equipped (own_value W.leads self.now) ssn }
    {
        match ssn {
            Some(MANAGEMENT) if self.answers_tests => true,
            Some(ssn) => self.subsystems.contains(&ssn),
            None => false,
        }
    }

    /// The point that a row leads a message of this link selection to, from this sender, if from any: its own; its
    /// backup while it can be led to that alone. A backup that the message came from isn't taken.
    #[tactic(auto, unfolding(crate::specs::Points::point_by))]
    pub(crate) fn point_by(
        &self,
        row: &TitleRow,
        sender: Option<PointCode>,
        sls: Sls,
        titles: &Titles,
    ) -> PointCode
        ensures { result ≡ point_by (own_value W.leads self.now) titles.now.prohibited sender sls row.now }
    {
        match row.backup() {
            Some(backup) if self.is_backup_taken(row, backup, sender, sls, titles) => backup,
            _ => row.point(),
        }
    }

    /// Whether this backup of a row serves such a message, and the row's point doesn't.
    fn is_backup_taken(
        &self,
        row: &TitleRow,
        backup: PointCode,
        sender: Option<PointCode>,
        sls: Sls,
        titles: &Titles,
    ) -> bool
        ensures { result ≡ (not (is_open (own_value W.leads self.now) titles.now.prohibited sls row.now.route
            row.now.point)
            && is_backup_open (own_value W.leads self.now) titles.now.prohibited sender sls row.now.route backup) }
    {
        !self.is_open(row, row.point(), sls, titles)
            && self.is_backup_open(row, backup, sender, sls, titles)
    }

    /// Whether such a message can be led to neither, though one of them is reached, since the subsystem there is
    /// prohibited.
    #[tactic(auto, unfolding(crate::specs::Points::is_barred))]
    pub(crate) fn is_barred(
        &self,
        row: &TitleRow,
        sender: Option<PointCode>,
        sls: Sls,
        titles: &Titles,
    ) -> bool
        ensures { result ≡ is_barred (own_value W.leads self.now) titles.now.prohibited sender sls row.now }
    {
        let point = row.point();
        match row.backup() {
            Some(backup) => {
                (self.is_shut(row, point, sls, titles)
                    || self.is_shut(row, backup, sls, titles)
                        && !self.is_open(row, point, sls, titles))
                    && !self.is_backup_open(row, backup, sender, sls, titles)
            }
            None => self.is_shut(row, point, sls, titles),
        }
    }

    /// The row, if its subsystem isn't prohibited. Refused SubsystemProhibited if it is.
    pub(crate) fn unless_barred(
        &self,
        row: TitleRow,
        sender: Option<PointCode>,
        sls: Sls,
        titles: &Titles,
    ) -> Result<TitleRow, Cause>
        ensures { result ≡ unless_barred (own_value W.leads self.now) titles.now.prohibited sender sls (Ok row) }
    {
        if self.is_barred(&row, sender, sls, titles) {
            Err(Cause::SubsystemProhibited)
        } else {
            Ok(row)
        }
    }

    /// Whether a message can be led there: it reaches the point, and its subsystem isn't prohibited.
    fn is_open(&self, row: &TitleRow, point: PointCode, sls: Sls, titles: &Titles) -> bool
        ensures { result ≡ is_open (own_value W.leads self.now) titles.now.prohibited sls row.now.route point }
    {
        self.reaches(point, sls) && !is_out(row.route(), point, titles)
    }

    /// Whether it reaches the point, and the subsystem there is prohibited.
    fn is_shut(&self, row: &TitleRow, point: PointCode, sls: Sls, titles: &Titles) -> bool
        ensures { result ≡ is_shut (own_value W.leads self.now) titles.now.prohibited sls row.now.route point }
    {
        is_out(row.route(), point, titles) && self.reaches(point, sls)
    }

    /// Whether a backup serves such a message: it can be led there, and didn't come from there.
    fn is_backup_open(
        &self,
        row: &TitleRow,
        backup: PointCode,
        sender: Option<PointCode>,
        sls: Sls,
        titles: &Titles,
    ) -> bool
        ensures { result
            ≡ is_backup_open (own_value W.leads self.now) titles.now.prohibited sender sls row.now.route backup }
    {
        self.is_open(row, backup, sls, titles) && !is_sender(sender, backup)
    }

    /// Whether messages of this link selection reach a point: it is this one, or a link leads to it.
    pub(crate) fn reaches(&self, point: PointCode, sls: Sls) -> bool
        ensures { result ≡ is_reached (own_value W.leads self.now) sls point }
    {
        point == self.point || self.ways.lead_to(point, sls)
    }
}

/// Whether the subsystem that a row leads to, by its number, is prohibited at this point.
fn is_out(to: TitleRoute, point: PointCode, titles: &Titles) -> bool
    ensures { result ≡ is_out titles.now.prohibited to point }
{
    match to {
        TitleRoute::Title(_) => false,
        TitleRoute::Ssn(number) => titles.is_prohibited(&Subsystem {
            point,
            ssn: number.number(),
        }),
    }
}

/// Whether a point is the one that a message came from.
fn is_sender(sender: Option<PointCode>, point: PointCode) -> bool
    ensures { result ≡ is_sender sender point }
{
    match sender {
        Some(sender) => point == sender,
        None => false,
    }
}
