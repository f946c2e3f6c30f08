//! Laws of the lines of clients. Each function states its law in its contract, and does nothing.

ghost use Rattle.console.specs.Trimming.{keeps_the_words};

/// A line without needless blanks has the words that it had before.
pub fn trimmed_lines_keep_their_words()
    ensures { keeps_the_words }
{}
