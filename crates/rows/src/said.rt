//! What is said of a row.

use std::alloc::Global;
use std::fmt::{Debug, Display, Write};

/// What is said of a row: words, each after a space. What there is no memory for is left out, so that the row fails.
#[derive(Drop)]
pub struct Said {
    /// The words.
    pub text: String,
}

impl Said {
    /// Nothing yet.
    pub fn new(alloc: Global) -> Said {
        Said {
            text: String::new(alloc),
        }
    }

    /// Says a word, or several.
    pub fn say<T: Display + Drop>(&mut self, words: T) {
        let _ = write!(self.text, " {words}");
    }

    /// Says a value, or that there is none.
    pub fn or_none<T: Display + Drop>(&mut self, value: Option<T>) {
        match value {
            Some(value) => self.say(value),
            None => self.say("none"),
        }
    }

    /// Puts a character to the last word.
    pub fn push(&mut self, character: char) {
        let _ = write!(self.text, "{character}");
    }

    /// Says a value as the code names it.
    pub fn show<T: Debug>(&mut self, value: &T) {
        let _ = write!(self.text, " {value:?}");
    }

    /// Says a fault, or the cause of a refusal, by its number and its name.
    pub fn fault<T: Debug>(&mut self, number: u8, fault: &T) {
        let _ = write!(self.text, " {number} {fault:?}");
    }

    /// Says octets.
    pub fn octets(&mut self, octets: &[u8]) {
        self.say(if octets.is_empty() { "-" } else { "" });
        for octet in octets {
            let _ = write!(self.text, "{octet:02x}");
        }
    }

    /// Says whether what was written is the same as what was read, or else what was written.
    pub fn again(&mut self, written: &[u8], read: &[u8]) {
        if written == read {
            self.say("same");
        } else {
            self.say("written");
            self.octets(written);
        }
    }
}
