//! Which of the words of a settings file is a key.

use crate::key_rows::KeyRow;
use crate::text_places::words::{Word, WordKind};

/// A part of the path of a key, and where it stands in the text.
#[derive(Clone, Copy)]
pub(crate) struct Part {
    /// Where it stands in the text.
    pub at: usize,
    /// Where it begins in the path.
    pub from: usize,
    /// How many octets it has.
    pub len: usize,
}

/// What a key is in.
#[derive(Clone, Copy)]
pub(crate) enum Around {
    /// The table, the entry or the array that this part of the path names.
    Named(Part),
    /// The entry whose braces open here.
    Braces(usize),
}

/// A search for the key of a row among the words of a text, as they come.
#[derive(Drop)]
pub(crate) struct Seeker<'a> {
    row: &'a KeyRow,
    /// The part of the path that is left in the table that the scan is in, if the key may be there.
    left: Option<&'static str>,
    /// The same of the table around braces.
    outer: Option<&'static str>,
    /// Whether no header came yet.
    is_first: bool,
    /// Whether the scan is in braces.
    in_braces: bool,
    /// How many headers of entries of the array came.
    entries: usize,
    /// Where the last name of the path stands.
    found: Option<usize>,
    /// What the key is in.
    around: Option<Around>,
}

/// A word without the blanks behind it, and without quotes; and how many octets are before it then.
fn bare(word: &[u8]) -> (&[u8], usize) {
    let word = word.trim_ascii_end();
    match word {
        [b'"', inner @ .., b'"'] | [b'\'', inner @ .., b'\''] => (inner, 1),
        _ => (word, 0),
    }
}

/// What is left of a path behind this front and a dot.
fn behind(path: &'static str, front: &[u8]) -> Option<&'static str> {
    let front = str::from_utf8(front).ok()?;
    path.strip_prefix(front)?.strip_prefix('.')
}

impl<'a> Seeker<'a> {
    /// Before the first word.
    pub(crate) fn new(row: &'a KeyRow) -> Seeker<'a> {
        let left = match row.entry {
            None => Some(row.front),
            Some(_) => None,
        };
        Seeker {
            row,
            left,
            outer: None,
            is_first: true,
            in_braces: false,
            entries: 0,
            found: None,
            around: None,
        }
    }

    /// Looks at the next word of the text.
    pub(crate) fn look_at(&mut self, text: &[u8], word: Word) {
        let Some(octets) = text.get(word.start..word.end) else {
            return;
        };
        let (name, quote) = bare(octets);
        let at = word.start.saturating_add(quote);
        match word.kind {
            WordKind::Key => self.look_at_key(name, at),
            WordKind::Table => self.look_at_table(name, at),
            WordKind::Entry => self.look_at_entry(name, at),
            WordKind::InlineTable => self.enter_table(name),
            WordKind::InlineEntry => self.enter_entry(name, word),
            WordKind::Closed => self.leave(),
        }
    }

    /// Where the last name of the path stands, if it was found.
    pub(crate) fn found(&self) -> Option<usize> {
        self.found
    }

    /// What the key is in, as far as it was found.
    pub(crate) fn around(&self) -> Option<Around> {
        self.around
    }

    /// The front of the path, of which this is the name.
    fn front(&self, name: &[u8], at: usize) -> Part {
        Part {
            at,
            from: 0,
            len: name.len(),
        }
    }

    fn look_at_key(&mut self, name: &[u8], at: usize) {
        if self.is_array(name) && !self.in_braces {
            self.around = Some(Around::Named(self.front(name, at)));
        }
        let Some(left) = self.left else {
            return;
        };
        if left.as_bytes() == name {
            self.find(name, at);
        } else if behind(left, name).is_some() && self.row.entry.is_none() {
            self.around = Some(Around::Named(Part {
                at,
                from: self.row.front.len().saturating_sub(left.len()),
                len: name.len(),
            }));
        }
    }

    /// Whether a key at the beginning is that of the array.
    fn is_array(&self, name: &[u8]) -> bool {
        self.is_first && self.row.entry.is_some() && self.row.front.as_bytes() == name
    }

    fn look_at_table(&mut self, name: &[u8], at: usize) {
        self.is_first = false;
        self.left = None;
        if self.row.entry.is_some() {
            return;
        }
        self.look_at_header(name, at);
    }

    fn look_at_header(&mut self, name: &[u8], at: usize) {
        if self.row.front.as_bytes() == name {
            self.find(name, at);
        } else if let Some(left) = behind(self.row.front, name) {
            self.left = Some(left);
            self.around = Some(Around::Named(self.front(name, at)));
        }
    }

    fn look_at_entry(&mut self, name: &[u8], at: usize) {
        self.is_first = false;
        self.left = None;
        match self.row.entry {
            Some(entry) => self.count_entry(entry, name, at),
            None => self.look_at_header(name, at),
        }
    }

    /// The header of an entry of the array of this name comes.
    fn count_entry(&mut self, entry: usize, name: &[u8], at: usize) {
        if self.row.front.as_bytes() != name {
            return;
        }
        if self.entries == entry {
            self.left = Some(self.row.name);
            self.around = Some(Around::Named(self.front(name, at)));
        }
        self.entries = self.entries.saturating_add(1);
    }

    /// The braces of the table of this key open.
    fn enter_table(&mut self, name: &[u8]) {
        self.outer = self.left;
        self.in_braces = true;
        self.left = match (self.row.entry, self.left) {
            (None, Some(left)) => behind(left, name),
            _ => None,
        };
    }

    /// The braces of an entry of the array of this key open.
    fn enter_entry(&mut self, name: &[u8], word: Word) {
        self.outer = self.left;
        self.in_braces = true;
        self.left = None;
        if self.is_array(name) && self.row.entry == Some(word.entry) {
            self.left = Some(self.row.name);
            self.around = Some(Around::Braces(word.at));
        }
    }

    /// The braces close.
    fn leave(&mut self) {
        self.left = self.outer;
        self.in_braces = false;
    }

    /// The path ends with this name, or with its last part.
    fn find(&mut self, name: &[u8], at: usize) {
        if self.found.is_none() {
            let before = name.len().saturating_sub(self.row.written().len());
            self.found = Some(at.saturating_add(before));
        }
    }
}
