//! The keys of settings, and how they are written.

ghost use Rattle.std.specs.Prelude.{◌≡◌, Some};
ghost use Rattle.settings.specs.Keys.{timer_path, key_front, key_index, key_back, key_path};

use std::fmt;

/// The keys of the timers.
#[derive(Clone, Copy)]
pub enum TimerKey {
    /// `l1`.
    L1,
    /// `l2`.
    L2,
    /// `l3`.
    L3,
    /// `l4`.
    L4,
    /// `l6`.
    L6,
    /// `l7`.
    L7,
    /// `t1`.
    T1,
    /// `t2`.
    T2,
    /// `t3`.
    T3,
    /// `t4`.
    T4,
    /// `t6`.
    T6,
    /// `t8`.
    T8,
    /// `t10`.
    T10,
    /// `slt1`.
    Slt1,
    /// `slt2`.
    Slt2,
    /// `l4e`.
    L4e,
    /// `sst`.
    Sst,
    /// `t2_bar`.
    T2Bar,
}

impl TimerKey {
    /// The key's path.
    pub fn path(self) -> &'static str
        ensures { result.now ≡ timer_path self }
    {
        match self {
            TimerKey::L1 => "timers.l1",
            TimerKey::L2 => "timers.l2",
            TimerKey::L3 => "timers.l3",
            TimerKey::L4 => "timers.l4",
            TimerKey::L6 => "timers.l6",
            TimerKey::L7 => "timers.l7",
            TimerKey::T1 => "timers.t1",
            TimerKey::T2 => "timers.t2",
            TimerKey::T3 => "timers.t3",
            TimerKey::T4 => "timers.t4",
            TimerKey::T6 => "timers.t6",
            TimerKey::T8 => "timers.t8",
            TimerKey::T10 => "timers.t10",
            TimerKey::Slt1 => "timers.slt1",
            TimerKey::Slt2 => "timers.slt2",
            TimerKey::L4e => "timers.l4e",
            TimerKey::Sst => "timers.sst",
            TimerKey::T2Bar => "timers.t2_bar",
        }
    }
}

/// The keys of the settings, with the index where a key is in an array. A key prints as its path,
/// as `link[2].slc`.
#[derive(Clone, Copy)]
pub enum Key {
    /// `version`.
    Version,
    /// `own`.
    Own,
    /// `network`.
    Network,
    /// `window`.
    Window,
    /// `pool`.
    Pool,
    /// `users`.
    Users,
    /// `subsystems`.
    Subsystems,
    /// `extended_unitdata`.
    ExtendedUnitdata,
    /// `subsystem_tests`.
    SubsystemTests,
    /// `user_part_unavailable`.
    UserPartUnavailable,
    /// `processor_outage`.
    ProcessorOutage,
    /// `out_of_service`.
    OutOfService,
    /// `changeover_by_any_route`.
    ChangeoverByAnyRoute,
    /// `timers`, the table itself.
    Timers,
    /// A key of `timers`.
    Timer(TimerKey),
    /// `set`, the array itself.
    Set,
    /// `set[i]`, the entry itself.
    SetEntry(usize),
    /// `set[i].name`.
    SetName(usize),
    /// `set[i].adjacent`.
    SetAdjacent(usize),
    /// `link`, the array itself.
    Link,
    /// `link[i]`, the entry itself.
    LinkEntry(usize),
    /// `link[i].name`.
    LinkName(usize),
    /// `link[i].set`.
    LinkSet(usize),
    /// `link[i].slc`.
    LinkSlc(usize),
    /// `link[i].share`.
    LinkShare(usize),
    /// `destination`, the array itself.
    Destination,
    /// `destination[i]`, the entry itself.
    DestinationEntry(usize),
    /// `destination[i].point`.
    DestinationPoint(usize),
    /// `destination[i].sets`.
    DestinationSets(usize),
    /// `destination[i].joined`.
    DestinationJoined(usize),
    /// `title`, the array itself.
    Title,
    /// `title[i]`, the entry itself.
    TitleEntry(usize),
    /// `title[i].translation`.
    TitleTranslation(usize),
    /// `title[i].plan`.
    TitlePlan(usize),
    /// `title[i].nature`.
    TitleNature(usize),
    /// `title[i].digits`.
    TitleDigits(usize),
    /// `title[i].point`.
    TitlePoint(usize),
    /// `title[i].backup`.
    TitleBackup(usize),
    /// `title[i].route`.
    TitleRoute(usize),
    /// `title[i].ssn`.
    TitleSsn(usize),
    /// `title[i].new_plan`.
    TitleNewPlan(usize),
    /// `title[i].new_nature`.
    TitleNewNature(usize),
    /// `title[i].remove`.
    TitleRemove(usize),
    /// `title[i].add`.
    TitleAdd(usize),
}

impl Key {
    /// The key's path; for a key of an entry of an array, that of the array.
    fn front(self) -> &'static str
        ensures { result.now ≡ key_front self }
    {
        match self {
            Key::Version => "version",
            Key::Own => "own",
            Key::Network => "network",
            Key::Window => "window",
            Key::Pool => "pool",
            Key::Users => "users",
            Key::Subsystems => "subsystems",
            Key::ExtendedUnitdata => "extended_unitdata",
            Key::SubsystemTests => "subsystem_tests",
            Key::UserPartUnavailable => "user_part_unavailable",
            Key::ProcessorOutage => "processor_outage",
            Key::OutOfService => "out_of_service",
            Key::ChangeoverByAnyRoute => "changeover_by_any_route",
            Key::Timers => "timers",
            Key::Timer(timer) => timer.path(),
            Key::Set | Key::SetEntry(_) | Key::SetName(_) | Key::SetAdjacent(_) => "set",
            Key::Link
            | Key::LinkEntry(_)
            | Key::LinkName(_)
            | Key::LinkSet(_)
            | Key::LinkSlc(_)
            | Key::LinkShare(_) => "link",
            Key::Destination
            | Key::DestinationEntry(_)
            | Key::DestinationPoint(_)
            | Key::DestinationSets(_)
            | Key::DestinationJoined(_) => "destination",
            _ => "title",
        }
    }

    /// The index of the entry of an array that the key is in.
    fn index(self) -> Option<usize>
        ensures { result ≡ key_index self }
    {
        match self {
            Key::SetEntry(i)
            | Key::SetName(i)
            | Key::SetAdjacent(i)
            | Key::LinkEntry(i)
            | Key::LinkName(i)
            | Key::LinkSet(i)
            | Key::LinkSlc(i)
            | Key::LinkShare(i)
            | Key::DestinationEntry(i)
            | Key::DestinationPoint(i)
            | Key::DestinationSets(i)
            | Key::DestinationJoined(i)
            | Key::TitleEntry(i)
            | Key::TitleTranslation(i)
            | Key::TitlePlan(i)
            | Key::TitleNature(i)
            | Key::TitleDigits(i)
            | Key::TitlePoint(i)
            | Key::TitleBackup(i)
            | Key::TitleRoute(i)
            | Key::TitleSsn(i)
            | Key::TitleNewPlan(i)
            | Key::TitleNewNature(i)
            | Key::TitleRemove(i)
            | Key::TitleAdd(i) => Some(i),
            _ => None,
        }
    }

    /// What is after the index: a dot and the key in its entry, or nothing.
    fn back(self) -> &'static str
        ensures { result.now ≡ key_back self }
    {
        match self {
            Key::SetName(_) | Key::LinkName(_) => ".name",
            Key::SetAdjacent(_) => ".adjacent",
            Key::LinkSet(_) => ".set",
            Key::LinkSlc(_) => ".slc",
            Key::LinkShare(_) => ".share",
            Key::DestinationPoint(_) | Key::TitlePoint(_) => ".point",
            Key::DestinationSets(_) => ".sets",
            Key::DestinationJoined(_) => ".joined",
            Key::TitleTranslation(_) => ".translation",
            Key::TitlePlan(_) => ".plan",
            Key::TitleNature(_) => ".nature",
            Key::TitleDigits(_) => ".digits",
            Key::TitleBackup(_) => ".backup",
            Key::TitleRoute(_) => ".route",
            Key::TitleSsn(_) => ".ssn",
            Key::TitleNewPlan(_) => ".new_plan",
            Key::TitleNewNature(_) => ".new_nature",
            Key::TitleRemove(_) => ".remove",
            Key::TitleAdd(_) => ".add",
            _ => "",
        }
    }
}

impl fmt::Display for Key {
    ghost output = { λ key. Some (key_path key) };

    fn fmt<W: fmt::Write>(&self, f: &mut fmt::Formatter<W>) -> fmt::Result {
        let front = self.front();
        let back = self.back();
        match self.index() {
            Some(i) => write!(f, "{front}[{i}]{back}"),
            None => f.write_str(front),
        }
    }
}
