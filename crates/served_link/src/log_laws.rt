//! Laws of the lines of the log.

ghost use Rattle.served_link.specs.LogLaws.{EscapesJson, TellsMonths, TellsUtc};

/// Times in UTC are told as they are by hand (RFC 3339 §5.6).
pub fn utc_is_told()
    ensures times { TellsUtc }
    ensures months { TellsMonths }
{}

/// Within a string of JSON no text has a control character or a quotation mark (RFC 8259 §7).
pub fn json_is_escaped()
    ensures { EscapesJson }
{}
