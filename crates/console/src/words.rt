//! The words of a line.

ghost use Rattle.std.specs.Prelude.{◌≡◌, ◌∷◌};
ghost use Rattle.console.specs.Words.{words, words_left, first_word, rest_of};

/// What separates the words of a line.
const SPACE: u8 = b' ';

/// The first word, and what is after the space after it, if there is one.
#[tactic(auto, using(crate::proofs::Parting::word_steps))]
pub fn cut(text: &[u8]) -> (&[u8], Option<&[u8]>)
    ensures { words text.now ≡ result.0.now ∷ words_left result.1 }
{
    for (at, octet) in text.iter().enumerate() {
        if *octet == SPACE {
            return (&text[..at], Some(&text[at + 1..]));
        }
    }
    (text, None)
}

/// The next word, which is empty if there is none, and what is behind it.
pub(crate) fn next_word(text: Option<&[u8]>) -> (&[u8], Option<&[u8]>)
    ensures word { result.0.now ≡ first_word (words_left text.entry) }
    ensures rest { words_left result.1 ≡ rest_of (words_left text.entry) }
{
    match text {
        Some(text) => cut(text),
        None => (b"".as_slice(), None),
    }
}
