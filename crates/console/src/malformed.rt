//! What a client is answered to a line that it may not write.

ghost use Rattle.std.specs.Prelude.{◌≡◌, ◌+◌, ◌≤◌, ◌++◌, Bool, length};
ghost use Rattle.console.specs.Words.{words};
ghost use Rattle.console.specs.Malformed.{answer_text, known_to, malformed_answer, mistake_text, near_text};
ghost use Rattle.console.specs.Malformed.{near_word, unknown_text, word_asked};
ghost use Rattle.console.specs.TitleMistakes.{title_sentence};

use crate::client_words::{COMMANDS, ClientWord, TEXTS};
use crate::mistakes::{Mistake, find_mistake};
use crate::nearest_word::{is_shown, nearest};
use crate::title_mistakes::TitleMistake;
use crate::words::next_word;
use arrayvec::ArrayVec;
use settings::PointFormat;
use std::alloc::Global;
use std::marker::Model;

/// Octets of an answer, at most.
const ANSWER_OCTETS: usize = 160;

/// The answer to a line that a client may not write: `malformed: `, why the line is none, and a line feed.
#[derive(Drop)]
pub struct MalformedAnswer {
    octets: ArrayVec<u8, ANSWER_OCTETS>,
}

impl Model for MalformedAnswer {
    ghost use Rattle.std.specs.Prelude.{List, ℕ};

    ghost Value = { List ℕ };

    ghost view = { λ a. a.octets.items };
}

impl MalformedAnswer {
    /// The answer to this line, which is none that a client may write. Points are read in this format. Without memory it
    /// names no near word.
    pub fn to(alloc: Global, line: &[u8], points: PointFormat) -> MalformedAnswer
        ensures { (lacks_memory : Bool) × (result ≡ malformed_answer lacks_memory points line.now) }
    {
        let mistake = find_mistake(line, points);
        let word = word_asked(mistake, line);
        let near = near_word(alloc, word, known_to(mistake));
        MalformedAnswer::of(mistake, word, near)
    }

    /// The answer about this mistake, with the word that isn't known, where that is the mistake, and the nearest one.
    fn of(mistake: Mistake, word: &[u8], near: Option<ClientWord>) -> MalformedAnswer
        ensures { result ≡ answer_text mistake word.now near }
    {
        let mut answer = MalformedAnswer {
            octets: ArrayVec::new(),
        };
        answer.push(b"malformed: ");
        answer.push_mistake(mistake, word, near);
        answer.push(b"\n");
        answer
    }

    /// What is to be written to the client.
    pub fn as_slice(&self) -> &[u8]
        ensures { result.now ≡ self.now }
    {
        self.octets.as_slice()
    }

    fn push(&mut self, text: &[u8])
        requires { length self.old + length text.now ≤ ANSWER_OCTETS }
        ensures { self.new ≡ self.old ++ text.now }
    {
        let _fits = self.octets.try_extend_from_slice(text);
    }

    fn push_mistake(&mut self, mistake: Mistake, word: &[u8], near: Option<ClientWord>)
        requires { length self.old + 148 ≤ ANSWER_OCTETS }
        ensures text { self.new ≡ self.old ++ mistake_text mistake word.now near }
        ensures short { length self.new ≤ length self.old + 148 }
    {
        match mistake {
            Mistake::NoCommand => self.push_unknown(b"no command ", b"no such command", word, near),
            Mistake::NoText => {
                self.push_unknown(b"show has no ", b"show has no such text", word, near);
            }
            Mistake::OfScripts => self.push(b"for scripts alone: here links and clock are real"),
            Mistake::NoHexDigit => self.push(b"submit: a character that is no hexadecimal digit"),
            Mistake::OddDigits => self.push(b"submit: an odd number of digits"),
            Mistake::TooManyOctets => self.push(b"submit: more than 4096 octets"),
            Mistake::Title(mistake) => self.push_title("title add", mistake),
            Mistake::SetTitle(mistake) => self.push_title("title set", mistake),
            Mistake::Form(command) => {
                self.push(b"must be ");
                self.push(command.form().as_bytes());
            }
        }
    }

    /// Appends what is wrong behind `title`, in the words of this order if it has all words of a row.
    fn push_title(&mut self, order: &'static str, mistake: TitleMistake)
        requires order { length order.now ≤ 12 }
        requires room { length self.old + 96 ≤ ANSWER_OCTETS }
        ensures text { self.new ≡ self.old ++ title_sentence order.now mistake }
        ensures short { length self.new ≤ length self.old + 96 }
    {
        self.push(mistake.front(order).as_bytes());
        self.push(b": ");
        self.push(mistake.reason().as_bytes());
    }

    /// Appends that a word isn't known, and the nearest one. A word that a terminal doesn't print isn't shown.
    fn push_unknown(&mut self, front: &[u8], such: &[u8], word: &[u8], near: Option<ClientWord>)
        requires front { length front.now ≤ 32 }
        requires such { length such.now ≤ 64 }
        requires room { length self.old + 96 ≤ ANSWER_OCTETS }
        ensures text { self.new ≡ self.old ++ unknown_text front.now such.now word.now near }
        ensures short { length self.new ≤ length self.old + 96 }
    {
        if is_shown(word) {
            self.push(front);
            self.push(word);
        } else {
            self.push(such);
        }
        self.push_near(near);
    }

    fn push_near(&mut self, near: Option<ClientWord>)
        requires { length self.old + 32 ≤ ANSWER_OCTETS }
        ensures text { self.new ≡ self.old ++ near_text near }
        ensures short { length self.new ≤ length self.old + 32 }
    {
        match near {
            Some(word) => {
                self.push(b"; the nearest is ");
                self.push(word.word().as_bytes());
            }
            None => self.push(b"; help lists them"),
        }
    }
}

/// The word that isn't known, where that is the mistake.
fn word_asked(mistake: Mistake, line: &[u8]) -> &[u8]
    ensures { result.now ≡ word_asked mistake (words line.now) }
{
    let (first, rest) = next_word(Some(line));
    match mistake {
        Mistake::NoText => next_word(rest).0,
        _ => first,
    }
}

/// The words that would have been known there.
fn known_to(mistake: Mistake) -> &'static [ClientWord]
    ensures { result.now ≡ known_to mistake }
{
    match mistake {
        Mistake::NoCommand => COMMANDS,
        Mistake::NoText => TEXTS,
        _ => &[],
    }
}

/// The one of these words that a word is nearest to, if one is near, and if there is memory to look for it.
fn near_word(alloc: Global, word: &[u8], known: &[ClientWord]) -> Option<ClientWord>
    ensures { (lacks_memory : Bool) × (result ≡ near_word lacks_memory word.now known.now) }
{
    match nearest(alloc, word, known) {
        Ok(near) => near,
        Err(_) => None,
    }
}
