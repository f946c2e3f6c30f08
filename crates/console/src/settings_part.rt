//! The parts of a settings file, in their order.

/// The service indicators that user parts may have (Q.704 §14.2.1).
pub const USER_INDICATORS: &[u8] = &[4, 5, 6, 7, 8, 9, 10, 11, 12, 13, 14, 15];

/// A part of a settings file, with some entries.
#[derive(Clone, Copy)]
pub enum SettingsPart {
    /// The version, and what is outside of tables and lists. It ends where the list of user parts begins.
    Node,
    /// The service indicators that user parts may have, of which those that the node has are shown.
    Users,
    /// The end of that list, and the beginning of that of subsystems.
    UsersEnd,
    /// The subsystems.
    Subsystems,
    /// The end of that list, and the beginning of the table of timers.
    SubsystemsEnd,
    /// The timers.
    Timers,
    /// The link sets.
    Sets,
    /// The links.
    Links,
    /// The destinations.
    Destinations,
    /// The translation rows.
    Titles,
}

/// All parts, in the order of the file.
pub const SETTINGS_PARTS: &[SettingsPart] = &[
    SettingsPart::Node,
    SettingsPart::Users,
    SettingsPart::UsersEnd,
    SettingsPart::Subsystems,
    SettingsPart::SubsystemsEnd,
    SettingsPart::Timers,
    SettingsPart::Sets,
    SettingsPart::Links,
    SettingsPart::Destinations,
    SettingsPart::Titles,
];
