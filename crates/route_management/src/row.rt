//! What one adjacent point was told.

ghost use Rattle.std.specs.Prelude.{◌≡◌, map, replicate, slice_get, slice_set, IfOk};
ghost use Rattle.routes.specs.declared.route.RouteStatus.TheVariants as status;

use routes::RouteStatus;
use std::alloc::{AllocError, Global};
use std::marker::Model;

/// What one adjacent point was told of each destination.
#[derive(Drop)]
pub(crate) struct ToldRow {
    statuses: Vec<RouteStatus>,
}

impl Model for ToldRow {
    ghost use Rattle.std.specs.Prelude.{List};
    ghost use Rattle.routes.specs.declared.route.RouteStatus.{RouteStatus};

    ghost Value = { List RouteStatus };

    ghost view = { λ s. s.statuses.items };
}

impl ToldRow {
    /// This many destinations, all of them allowed.
    pub(crate) fn new(alloc: Global, destinations: usize) -> Result<ToldRow, AllocError>
        ensures { IfOk result (λ row. row ≡ replicate destinations status.Allowed) }
    {
        Ok(ToldRow {
            statuses: vec![in alloc; RouteStatus::Allowed; destinations]?,
        })
    }

    /// What it was told of a destination, if that is there.
    pub(crate) fn status(&self, destination: usize) -> Option<RouteStatus>
        ensures { result ≡ slice_get self.now destination }
    {
        self.statuses.get(destination).copied()
    }

    /// It is told of a destination.
    pub(crate) fn tell(&mut self, destination: usize, status: RouteStatus)
        ensures { self.new ≡ slice_set self.old destination status }
    {
        if let Some(told) = self.statuses.get_mut(destination) {
            *told = status;
        }
    }

    /// It takes all for allowed.
    pub(crate) fn reset(&mut self)
        ensures { self.new ≡ map (λ old. status.Allowed) self.old }
    {
        allow_all(&mut self.statuses);
    }
}

fn allow_all(statuses: &mut [RouteStatus])
    ensures { statuses.new ≡ map (λ old. status.Allowed) statuses.old }
{
    for status in statuses.iter_mut() {
        *status = RouteStatus::Allowed;
    }
}
