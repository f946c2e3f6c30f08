//! A scan over the text of a settings file, which is TOML, for its headers and keys.

use crate::text_places::words::{Mode, Word, WordKind};

/// A scan over a text, octet by octet.
#[derive(Drop)]
pub(crate) struct Scanner {
    mode: Mode,
    /// Where the last word began.
    start: usize,
    /// What the header is.
    header: WordKind,
    /// The last key that is in no braces.
    outer: Word,
    /// How many brackets and braces of a value are open.
    depth: usize,
    /// How many entries of the array came in the first of them.
    entry: usize,
    /// Whether the first of them is a bracket.
    is_array: bool,
    /// How many are open in the braces that have keys; 0 outside of such.
    inline: usize,
    /// The quote of a text.
    quote: u8,
    /// How many of these quotes came in a row.
    quotes: usize,
    /// Whether the octet before was a backslash.
    escaped: bool,
    /// Where the scan goes on behind a text on one line, and behind a comment in braces or brackets.
    next: Mode,
}

impl Scanner {
    /// Before the first octet.
    pub(crate) fn new() -> Scanner {
        Scanner {
            mode: Mode::Begin,
            start: 0,
            header: WordKind::Table,
            outer: Word {
                kind: WordKind::Key,
                start: 0,
                end: 0,
                at: 0,
                entry: 0,
            },
            depth: 0,
            entry: 0,
            is_array: false,
            inline: 0,
            quote: b'"',
            quotes: 0,
            escaped: false,
            next: Mode::Begin,
        }
    }

    /// Takes the next octet, which is at this index. Returns the word that ends before it, if one does, or the key of the
    /// braces that it opens or closes.
    pub(crate) fn step(&mut self, octet: u8, at: usize) -> Option<Word> {
        match self.mode {
            Mode::Begin if self.inline > 0 && octet == b'}' => self.close(at),
            Mode::Begin => self.begin(octet, at),
            Mode::Header => self.header(octet, at),
            Mode::Key => self.key(octet, at),
            Mode::Value => self.value(octet, at),
            Mode::Opening => self.opening(octet, at),
            Mode::Text => self.text(octet),
            Mode::LongText => self.long_text(octet, at),
            Mode::Comment => self.comment(octet),
        }
    }

    fn begin(&mut self, octet: u8, at: usize) -> Option<Word> {
        match octet {
            b' ' | b'\t' | b'\r' | b'\n' => {}
            b'#' => self.pass_by(Mode::Begin),
            b'"' | b'\'' => {
                self.start = at;
                self.quote(octet, Mode::Key);
            }
            b'[' if self.inline == 0 => {
                self.mode = Mode::Header;
                self.header = WordKind::Table;
                self.start = at.saturating_add(1);
            }
            _ => {
                self.mode = Mode::Key;
                self.start = at;
            }
        }
        None
    }

    fn header(&mut self, octet: u8, at: usize) -> Option<Word> {
        match octet {
            b'[' if at == self.start => {
                self.header = WordKind::Entry;
                self.start = at.saturating_add(1);
                None
            }
            b' ' | b'\t' if at == self.start => {
                self.start = at.saturating_add(1);
                None
            }
            b'"' | b'\'' => {
                self.quote(octet, Mode::Header);
                None
            }
            b']' => {
                self.pass_by(Mode::Begin);
                Some(self.word(self.header, at))
            }
            b'\n' => {
                self.mode = Mode::Begin;
                None
            }
            _ => None,
        }
    }

    fn key(&mut self, octet: u8, at: usize) -> Option<Word> {
        match octet {
            b'=' => {
                self.mode = Mode::Value;
                let word = self.word(WordKind::Key, at);
                if self.inline == 0 {
                    self.depth = 0;
                    self.entry = 0;
                    self.outer = word;
                }
                Some(word)
            }
            b'"' | b'\'' => {
                self.quote(octet, Mode::Key);
                None
            }
            b'\n' => {
                self.mode = Mode::Begin;
                None
            }
            _ => None,
        }
    }

    /// A text on one line begins with this quote. Behind it the scan goes on there.
    fn quote(&mut self, quote: u8, next: Mode) {
        self.mode = Mode::Text;
        self.quote = quote;
        self.escaped = false;
        self.next = next;
    }

    /// What is ignored begins, up to the end of the line. Behind it the scan goes on there, if braces or brackets are open.
    fn pass_by(&mut self, next: Mode) {
        self.mode = Mode::Comment;
        self.next = next;
    }

    /// The word from where it began.
    fn word(&self, kind: WordKind, end: usize) -> Word {
        Word {
            kind,
            start: self.start,
            end,
            at: end,
            entry: 0,
        }
    }

    fn value(&mut self, octet: u8, at: usize) -> Option<Word> {
        match octet {
            b'"' | b'\'' => {
                self.mode = Mode::Opening;
                self.quote = octet;
                self.quotes = 1;
                self.escaped = false;
            }
            b'[' => {
                self.is_array = self.is_array || self.depth == 0;
                self.depth = self.depth.saturating_add(1);
            }
            b'{' => return self.open(at),
            b'}' if self.inline > 0 && self.inline == self.depth => return self.close(at),
            b']' | b'}' => self.depth = self.depth.saturating_sub(1),
            b',' if self.inline > 0 && self.inline == self.depth => self.mode = Mode::Begin,
            b',' if self.depth == 1 => self.entry = self.entry.saturating_add(1),
            b'#' => self.pass_by(Mode::Value),
            b'\n' if self.depth == 0 => self.end_value(),
            _ => {}
        }
        None
    }

    /// A line ends, and a value with it.
    fn end_value(&mut self) {
        self.mode = Mode::Begin;
        self.is_array = false;
    }

    /// Braces open. Those of a table, and those of an entry of an array, have keys.
    fn open(&mut self, at: usize) -> Option<Word> {
        let kind = match (self.depth, self.is_array) {
            (0, _) => WordKind::InlineTable,
            (1, true) => WordKind::InlineEntry,
            _ => {
                self.depth = self.depth.saturating_add(1);
                return None;
            }
        };
        self.depth = self.depth.saturating_add(1);
        self.inline = self.depth;
        self.mode = Mode::Begin;
        Some(Word {
            kind,
            at,
            entry: self.entry,
            ..self.outer
        })
    }

    /// The braces that have keys close.
    fn close(&mut self, at: usize) -> Option<Word> {
        self.inline = 0;
        self.depth = self.depth.saturating_sub(1);
        self.mode = Mode::Value;
        Some(Word {
            kind: WordKind::Closed,
            at,
            ..self.outer
        })
    }

    fn opening(&mut self, octet: u8, at: usize) -> Option<Word> {
        if octet == self.quote && self.quotes < 2 {
            self.quotes = 2;
            return None;
        }
        if octet == self.quote {
            self.mode = Mode::LongText;
            self.quotes = 0;
            return None;
        }
        if self.quotes == 2 {
            self.mode = Mode::Value;
            return self.value(octet, at);
        }
        self.quote(self.quote, Mode::Value);
        self.text(octet)
    }

    fn text(&mut self, octet: u8) -> Option<Word> {
        if self.escaped {
            self.escaped = false;
        } else if octet == b'\\' && self.quote == b'"' {
            self.escaped = true;
        } else if octet == self.quote {
            self.mode = self.next;
        }
        None
    }

    fn long_text(&mut self, octet: u8, at: usize) -> Option<Word> {
        if self.escaped {
            self.escaped = false;
            return None;
        }
        if octet == self.quote {
            self.quotes = self.quotes.saturating_add(1);
            return None;
        }
        if self.quotes >= 3 {
            self.mode = Mode::Value;
            return self.value(octet, at);
        }
        self.quotes = 0;
        self.escaped = octet == b'\\' && self.quote == b'"';
        None
    }

    fn comment(&mut self, octet: u8) -> Option<Word> {
        if octet == b'\n' {
            if self.depth == 0 {
                self.end_value();
            } else {
                self.mode = self.next;
            }
        }
        None
    }
}
