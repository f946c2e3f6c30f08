//! How severe a line of the log is.

ghost use Rattle.std.specs.Prelude.{◌≡◌};
ghost use Rattle.served_link.specs.Severities.{begins, priority_of, severity_name, severity_number, severity_of};
ghost use Rattle.served_link.specs.Severities.{tells_a_change, tells_news, warns};

/// How severe a line of the log is (RFC 5424 §6.2.1).
#[derive(Clone, Copy, Debug, PartialEq, Eq)]
pub enum Severity {
    /// An alarm, a flag, or lines that were missed.
    Warning,
    /// A change of a link, a set or a destination, that an alarm is cleared, an order, a notice.
    Notice,
    /// What became of a socket.
    Info,
    /// That a client came or went.
    Debug,
}

impl Severity {
    /// The severity's number, as syslog and journald have it: the lower, the more severe.
    pub fn number(self) -> u8
        ensures { result ≡ severity_number self }
    {
        match self {
            Severity::Warning => 4,
            Severity::Notice => 5,
            Severity::Info => 6,
            Severity::Debug => 7,
        }
    }

    /// The severity's name, as settings have it.
    pub fn name(self) -> &'static str
        ensures { result.now ≡ severity_name self }
    {
        match self {
            Severity::Warning => "warning",
            Severity::Notice => "notice",
            Severity::Info => "info",
            Severity::Debug => "debug",
        }
    }

    /// The severity in front of a line, as journald reads it: `<4>`.
    pub fn priority(self) -> [u8; 3]
        ensures { result ≡ priority_of self }
    {
        [b'<', b'0' + self.number(), b'>']
    }

    /// The severity of a line of this text, which is without its time.
    pub fn of(text: &[u8]) -> Severity
        ensures { result ≡ severity_of text.now }
    {
        if warns(text) {
            Severity::Warning
        } else if tells_a_change(text) || tells_news(text) {
            Severity::Notice
        } else if begins(text, b"caller ") {
            Severity::Debug
        } else {
            Severity::Info
        }
    }
}

/// Whether a text says what an operator has to look at.
fn warns(text: &[u8]) -> bool
    ensures { result ≡ warns text.now }
{
    begins(text, b"alarm ") || begins(text, b"flag ") || begins(text, b"missed ")
}

/// Whether a text says what changed.
fn tells_a_change(text: &[u8]) -> bool
    ensures { result ≡ tells_a_change text.now }
{
    begins(text, b"link ")
        || begins(text, b"set ")
        || begins(text, b"destination ")
        || begins(text, b"clear ")
}

/// Whether a text says what was ordered, or what else an operator may want to know.
fn tells_news(text: &[u8]) -> bool
    ensures { result ≡ tells_news text.now }
{
    begins(text, b"order ")
        || begins(text, b"notice ")
        || begins(text, b"start ")
        || begins(text, b"stop")
        || begins(text, b"kept ")
}

/// Whether a text begins with a word.
fn begins(text: &[u8], word: &[u8]) -> bool
    ensures { result ≡ begins word.now text.now }
{
    text.starts_with(word)
}
