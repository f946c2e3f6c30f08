//! The words of the text of a settings file, and where a scan for them is.

/// What a word in the text is.
#[derive(Clone, Copy)]
pub(crate) enum WordKind {
    /// The path in the header of a table, `[timers]`.
    Table,
    /// The path in the header of an entry of an array, `[[link]]`.
    Entry,
    /// A key before its value, dotted or not.
    Key,
    /// The key of a table in braces, which opens.
    InlineTable,
    /// The key of an array in brackets, of which an entry in braces opens.
    InlineEntry,
    /// Where such a table or entry closes.
    Closed,
}

/// A word in the text, from one octet to before another.
#[derive(Clone, Copy)]
pub(crate) struct Word {
    /// What it is.
    pub kind: WordKind,
    /// Where it begins.
    pub start: usize,
    /// Where it has ended, blanks behind it included.
    pub end: usize,
    /// Where the scan is: behind a key, or at a bracket or a brace.
    pub at: usize,
    /// For an entry in braces its index.
    pub entry: usize,
}

/// Where the scan is.
#[derive(Clone, Copy)]
pub(crate) enum Mode {
    /// At the beginning of a line, or in blanks there; or before a key in braces.
    Begin,
    /// In a header.
    Header,
    /// In a key.
    Key,
    /// In a value.
    Value,
    /// In the quotes that a text begins with.
    Opening,
    /// In a text on one line, which is a value or a part of a key.
    Text,
    /// In a text that may have several lines.
    LongText,
    /// In what is ignored up to the end of the line.
    Comment,
}
