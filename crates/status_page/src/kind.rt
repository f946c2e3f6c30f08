//! What the metrics of a family do over time.

ghost use Rattle.std.specs.Prelude.{◌≡◌, ◌≤◌, length};
ghost use Rattle.status_page.specs.Families.{type_name};

/// What a metric does over time.
#[derive(Clone, Copy)]
pub enum Kind {
    /// It only grows, until the node starts again.
    Counter,
    /// It goes up and down.
    Gauge,
}

impl Kind {
    /// The kind's name in a TYPE line.
    pub fn name(self) -> &'static str
        ensures name { result.now ≡ type_name self }
        ensures fits { length result.now ≤ 7 }
    {
        match self {
            Kind::Counter => "counter",
            Kind::Gauge => "gauge",
        }
    }
}
