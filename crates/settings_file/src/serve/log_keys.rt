//! The keys of the log: how its lines tell the time, which of them are written, and as what.

ghost use Rattle.std.specs.Prelude.{◌≡◌};
ghost use Rattle.toml.specs.View.{table_view};
ghost use Rattle.settings_file.specs.LogKeys.{log_at, log_form_at, log_least_at, log_times_at};

use crate::serve::fault::ServeFault;
use crate::serve::key::ServeKey;
use crate::serve::keys::text_or;
use toml::Table;

/// The least severity of the lines of the log that are written.
#[derive(Clone, Copy)]
pub enum LogLeast {
    /// What an operator has to look at.
    Warning,
    /// What changed, and news.
    Notice,
    /// What became of a socket, and what is over.
    Info,
    /// All lines.
    Debug,
}

/// The settings of the log.
#[derive(Clone, Copy)]
pub struct LogSettings {
    /// Whether a line tells its time in UTC (RFC 3339). Else it tells the seconds since the start.
    pub is_utc: bool,
    /// Lines that are less severe aren't written.
    pub least: LogLeast,
    /// Whether a line is an object of JSON (RFC 8259). Else it is text.
    pub is_json: bool,
}

/// The settings of the log if a file says nothing of it.
const USUAL: LogSettings = LogSettings {
    is_utc: false,
    least: LogLeast::Debug,
    is_json: false,
};

/// The settings of the log, in the table of a file that is of version 4 or isn't.
#[tactic(auto, unfolding(crate::specs::LogKeys::log_at))]
pub(crate) fn log_settings(serve: &Table, is_fourth: bool) -> Result<LogSettings, ServeFault>
    ensures { result ≡ log_at is_fourth (table_view serve.now) }
{
    if !is_fourth {
        return Ok(USUAL);
    }
    let is_utc = log_times(serve)?;
    let least = log_least(serve)?;
    let is_json = log_form(serve)?;
    Ok(LogSettings {
        is_utc,
        least,
        is_json,
    })
}

/// Whether a line tells its time in UTC.
#[tactic(auto, unfolding(crate::specs::LogKeys::log_times_at))]
pub(crate) fn log_times(serve: &Table) -> Result<bool, ServeFault>
    ensures { result ≡ log_times_at (table_view serve.now) }
{
    match text_or(serve, ServeKey::LogTimes, "seconds")? {
        "seconds" => Ok(false),
        "utc" => Ok(true),
        _ => Err(ServeFault::Range(ServeKey::LogTimes)),
    }
}

/// The least severity of lines that are written.
#[tactic(auto, unfolding(crate::specs::LogKeys::log_least_at))]
pub(crate) fn log_least(serve: &Table) -> Result<LogLeast, ServeFault>
    ensures { result ≡ log_least_at (table_view serve.now) }
{
    match text_or(serve, ServeKey::LogLeast, "debug")? {
        "debug" => Ok(LogLeast::Debug),
        "info" => Ok(LogLeast::Info),
        "notice" => Ok(LogLeast::Notice),
        "warning" => Ok(LogLeast::Warning),
        _ => Err(ServeFault::Range(ServeKey::LogLeast)),
    }
}

/// Whether a line is an object of JSON.
#[tactic(auto, unfolding(crate::specs::LogKeys::log_form_at))]
pub(crate) fn log_form(serve: &Table) -> Result<bool, ServeFault>
    ensures { result ≡ log_form_at (table_view serve.now) }
{
    match text_or(serve, ServeKey::LogForm, "text")? {
        "text" => Ok(false),
        "json" => Ok(true),
        _ => Err(ServeFault::Range(ServeKey::LogForm)),
    }
}
