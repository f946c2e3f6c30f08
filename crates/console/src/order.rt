//! Orders as an operator writes them.

ghost use Rattle.std.specs.Prelude.{◌≡◌};
ghost use Rattle.console.specs.Words.{words, words_left};
ghost use Rattle.console.specs.TitleWords.{if_last};
ghost use Rattle.console.specs.Orders.{ToRemoveTitle, instructed_by, instruction, instruction_of, instruction_or};
ghost use Rattle.console.specs.Orders.{is_verb, order_named, row_order, title_order, title_order_about};
ghost use Rattle.settings.specs.TitleRanges.{HasTitleRanges};
ghost use Rattle.console.specs.declared.title_mistakes.TitleMistake.TheVariants.{BehindName};

use crate::commands::Command;
use crate::title_mistakes::TitleMistake;
use crate::title_words::{RowName, read_name, read_row};
use crate::words::next_word;
use exchange::{Order, TitleDigits, TitleKey};
use settings::{PointFormat, Settings, TitleRow};

/// An order as it was written.
#[derive(Drop)]
pub enum OrderText<'a> {
    /// `activate LINK`, then perhaps `emergency`: the link may open, with emergency proving if that is asked for.
    Activate {
        /// The link's name; there may be no such link.
        link: &'a [u8],
        /// Whether `emergency` is behind it.
        emergency: bool,
    },
    /// `deactivate LINK`: the link fails if it isn't down, and can't open.
    Deactivate {
        /// The link's name; no link need have it.
        link: &'a [u8],
    },
    /// `release LINK`: the link may open though the answer to its changeover order is awaited, once its changeover is
    /// complete.
    Release {
        /// The link's name; no link need have it.
        link: &'a [u8],
    },
    /// `title add T P N DIGITS POINT ROUTE SSN`, then `backup POINT` if there is a backup, and
    /// `changed PLAN NATURE REMOVE ADD` if titles change: the translation row is added.
    AddTitle {
        /// The row.
        row: TitleRow,
    },
    /// `title set` with the same words: the translation row replaces the one of its key and digits, or is added.
    SetTitle {
        /// The row.
        row: TitleRow,
    },
    /// `title remove T P N DIGITS`: the translation row is removed.
    RemoveTitle {
        /// Its translation type, numbering plan and nature of address.
        key: TitleKey,
        /// Its digits.
        digits: TitleDigits,
    },
}

/// The order that a command gives with these words after it, two or more, and points in this format.
pub fn order_by(command: Command, behind: &[u8], points: PointFormat) -> Option<OrderText<'_>>
    ensures { instruction_of result ≡ instructed_by points command (words behind.now) }
{
    match command {
        Command::Title => match title_order(Some(behind), points) {
            Ok(order) => Some(order),
            Err(_) => None,
        },
        _ => None,
    }
}

/// The order that the words after `title` give. The error is the first mistake in them.
pub(crate) fn title_order(
    text: Option<&[u8]>,
    points: PointFormat,
) -> Result<OrderText<'_>, TitleMistake>
    ensures { instruction_or result ≡ title_order points (words_left text.entry) }
{
    let (verb, rest) = next_word(text);
    if !is_verb(verb) {
        return Err(TitleMistake::Verb);
    }
    let (translation, rest) = next_word(rest);
    let (plan, rest) = next_word(rest);
    let (nature, rest) = next_word(rest);
    let (digits, rest) = next_word(rest);
    let name = read_name(translation, plan, nature, digits)?;
    order_about(verb, name, rest, points)
}

fn is_verb(word: &[u8]) -> bool
    ensures { result ≡ is_verb word.now }
{
    word == b"remove".as_slice() || word == b"add".as_slice() || word == b"set".as_slice()
}

/// The order about the row of this name: it is removed, or added or set with the words behind. The error is the first
/// mistake in them.
fn order_about<'a>(
    verb: &[u8],
    name: RowName,
    text: Option<&'a [u8]>,
    points: PointFormat,
) -> Result<OrderText<'a>, TitleMistake>
    requires { HasTitleRanges name.key.plan name.key.nature name.digits.items }
    ensures { instruction_or result ≡ title_order_about points verb.now name (words_left text.entry) }
{
    if verb == b"remove".as_slice() {
        return removal(name, text);
    }
    let row = read_row(&name, text, points)?;
    Ok(row_order(verb, row))
}

/// The order that has all words of a row.
fn row_order<'a>(verb: &[u8], row: TitleRow) -> OrderText<'a>
    ensures { instruction result ≡ row_order verb.now row }
{
    if verb == b"set".as_slice() {
        OrderText::SetTitle { row }
    } else {
        OrderText::AddTitle { row }
    }
}

/// The order that removes the row of this name, if no words are behind it.
#[tactic(auto, using(crate::proofs::LastWords::last_steps))]
fn removal(name: RowName, text: Option<&[u8]>) -> Result<OrderText<'_>, TitleMistake>
    ensures { instruction_or result
        ≡ if_last (words_left text.entry) BehindName (ToRemoveTitle name.key name.digits.items) }
{
    match text {
        None => Ok(OrderText::RemoveTitle {
            key: name.key,
            digits: name.digits,
        }),
        Some(_) => Err(TitleMistake::BehindName),
    }
}

impl OrderText<'_> {
    /// The order to a node with these settings; `None` if no link has that name. It looks through all links.
    pub fn named(self, settings: &Settings) -> Option<Order>
        ensures { result ≡ order_named settings.now (instruction self.entry) }
    {
        match self {
            OrderText::Activate { link, emergency } => {
                let link = settings.link_named(link)?;
                Some(Order::Activate { link, emergency })
            }
            OrderText::Deactivate { link } => {
                let link = settings.link_named(link)?;
                Some(Order::Deactivate(link))
            }
            OrderText::Release { link } => {
                let link = settings.link_named(link)?;
                Some(Order::Release(link))
            }
            OrderText::AddTitle { row } => Some(Order::AddTitle(row)),
            OrderText::SetTitle { row } => Some(Order::SetTitle(row)),
            OrderText::RemoveTitle { key, digits } => Some(Order::RemoveTitle(key, digits)),
        }
    }
}
