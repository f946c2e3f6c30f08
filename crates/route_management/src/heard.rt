//! What adjacent points ask of routes.

ghost use Rattle.std.specs.Prelude.{◌≡◌};
ghost use Rattle.route_management.specs.Told.{heard_of, tested};

use routes::RouteStatus;

/// What comes of a transfer-prohibited, -restricted or -allowed message (Q.704 §13.2 to §13.4).
#[derive(Clone, Copy, PartialEq, Eq)]
pub enum Heard {
    /// Nothing: it is about the point that it comes from, or about a destination that this point's set doesn't lead to.
    Ignored,
    /// The route has that status already.
    Unchanged,
    /// The route gets another status.
    Changed,
}

/// A signalling-route-set-test message (Q.704 §13.5).
#[derive(Clone, Copy, PartialEq, Eq)]
pub enum RouteTest {
    /// It asks whether a destination is still prohibited.
    Prohibited,
    /// It asks whether a destination is still restricted.
    Restricted,
}

impl RouteTest {
    /// The status that it asks about.
    pub(crate) fn tested(self) -> RouteStatus
        ensures { result ≡ tested self }
    {
        match self {
            RouteTest::Prohibited => RouteStatus::Prohibited,
            RouteTest::Restricted => RouteStatus::Restricted,
        }
    }
}

/// What a status says of a route, which has this one if it is there.
pub(crate) fn heard_of(old: Option<RouteStatus>, status: RouteStatus) -> Heard
    ensures { result ≡ heard_of old status }
{
    match old {
        None => Heard::Ignored,
        Some(old) if old.is(status) => Heard::Unchanged,
        Some(_) => Heard::Changed,
    }
}
