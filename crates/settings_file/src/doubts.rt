//! Warnings of values that a file may have, and that are hardly meant.

mod timers;
mod titles;

ghost use Rattle.std.specs.Prelude.{◌≡◌, ◌++◌, take, IfOk, OnOk, string_bytes};
ghost use Rattle.toml.specs.View.{table_view};
ghost use Rattle.settings_file.specs.Sentences.{IsAbout};
ghost use Rattle.settings_file.specs.Doubts.{key_if, is_above, each_key, timers_of, doubtful_share, all_doubtful, doubtful, AreDoubts};

use crate::doubts::timers::{doubt_timers, range_words};
use crate::doubts::titles::doubt_titles;
use crate::key_rows::key_row;
use crate::known_keys::has_fourth;
use crate::phrases::value_is;
use crate::places::{about, value_at};
use crate::ticks::tick_if_told;
use settings::{Key, LinkRow, Settings};
use std::alloc::{AllocError, Global};
use toml::{Table, Value};

/// Warnings of values of one file, at most.
pub const MOST_DOUBTS: usize = 20;

/// A warning for each of the first 20 values that are hardly meant, in the document of a settings file of version 4 of this
/// name, which says these settings: timers that last less or longer than a standard has it, if the file's server says
/// how long a tick is; shares above the pool; and points of titles that are neither destinations nor the node's own.
/// Each ends with a line feed: `node.toml: timers.l1 is 45000, in ticks of 100 ms, and Q.703 has 40 to 50 s`.
///
/// `AllocError` if memory ran out.
pub fn value_warnings(
    alloc: Global,
    file: &str,
    document: &Table,
    settings: &Settings,
) -> Result<String, AllocError>
    ensures { IfOk result (λ text. AreDoubts file.now
        (take MOST_DOUBTS (doubtful (table_view document.now) settings.now)) (string_bytes text)) }
{
    let mut doubts = doubtful(alloc, document, settings)?;
    doubts.truncate(MOST_DOUBTS);
    sentences(alloc, file, document, &doubts)
}

/// Puts a key behind others, if its value is hardly meant.
pub(crate) fn doubt_if(is: bool, doubts: &mut Vec<Key>, key: Key) -> Result<(), AllocError>
    ensures { OnOk result (doubts.new.items ≡ doubts.old.items ++ key_if is key) }
{
    if is {
        doubts.push(key)?;
    }
    Ok(())
}

/// The keys whose values are hardly meant.
#[tactic(auto, unfolding(crate::specs::Doubts::doubtful))]
fn doubtful(alloc: Global, document: &Table, settings: &Settings) -> Result<Vec<Key>, AllocError>
    ensures { IfOk result (λ doubts. doubts.items ≡ doubtful (table_view document.now) settings.now) }
{
    let mut doubts = Vec::new(alloc);
    if has_fourth(document) {
        doubt_all(document, settings, &mut doubts)?;
    }
    Ok(doubts)
}

/// Puts the keys whose values are hardly meant behind others: timers, then shares, then points of titles.
fn doubt_all(document: &Table, settings: &Settings, doubts: &mut Vec<Key>) -> Result<(), AllocError>
    ensures { OnOk result (doubts.new.items ≡ doubts.old.items ++ all_doubtful (table_view document.now) settings.now) }
{
    doubt_server_timers(document, settings, doubts)?;
    doubt_shares(settings, doubts)?;
    doubt_titles(settings, doubts)?;
    Ok(())
}

/// The same of timers, if the server of a file says how long a tick is.
fn doubt_server_timers(
    document: &Table,
    settings: &Settings,
    doubts: &mut Vec<Key>,
) -> Result<(), AllocError>
    ensures { OnOk result (doubts.new.items
        ≡ doubts.old.items ++ timers_of (table_view document.now) settings.now.timers) }
{
    doubt_timers(tick_if_told(document), settings.timers(), doubts)
}

/// The same of shares.
fn doubt_shares(settings: &Settings, doubts: &mut Vec<Key>) -> Result<(), AllocError>
    ensures { OnOk result (doubts.new.items
        ≡ doubts.old.items ++ each_key (doubtful_share settings.now.pool) 0 settings.now.links) }
{
    doubt_each_share(settings.pool(), settings.links(), doubts)
}

/// Whether a share is above the pool.
fn is_above(pool: usize, share: Option<u16>) -> bool
    ensures { result ≡ is_above pool share }
{
    match share {
        Some(share) => usize::from(share) > pool,
        None => false,
    }
}

/// Puts the keys of the shares of links behind others that are above the pool.
fn doubt_each_share(pool: usize, links: &[LinkRow], doubts: &mut Vec<Key>) -> Result<(), AllocError>
    ensures { OnOk result (doubts.new.items ≡ doubts.old.items ++ each_key (doubtful_share pool) 0 links.now) }
{
    for i in 0..links.len() {
        doubt_share(pool, i, &links[i], doubts)?;
    }
    Ok(())
}

/// Puts the key of the share of a link behind others, if that is above the pool.
fn doubt_share(
    pool: usize,
    i: usize,
    link: &LinkRow,
    doubts: &mut Vec<Key>,
) -> Result<(), AllocError>
    ensures { OnOk result (doubts.new.items ≡ doubts.old.items ++ doubtful_share pool i link.now) }
{
    doubt_if(is_above(pool, link.share()), doubts, Key::LinkShare(i))
}

/// The warnings of the values at these keys.
fn sentences(
    alloc: Global,
    file: &str,
    document: &Table,
    doubts: &[Key],
) -> Result<String, AllocError>
    ensures { IfOk result (λ text. AreDoubts file.now doubts.now (string_bytes text)) }
{
    let mut text = String::new(alloc);
    for i in 0..doubts.len() {
        let sentence = doubt(alloc, file, document, doubts[i])?;
        text.push_str(sentence.as_str())?;
    }
    Ok(text)
}

/// The warning of the value at a key.
fn doubt(alloc: Global, file: &str, document: &Table, key: Key) -> Result<String, AllocError>
    ensures { IfOk result (λ sentence. IsAbout file.now key (string_bytes sentence)) }
{
    let row = key_row(key);
    let why = match key {
        Key::Timer(timer) => range_words(timer),
        Key::LinkShare(_) => "which is more than the pool",
        _ => "and no [[destination]] has this point",
    };
    match value_at(document, &row) {
        Some(value) => {
            let why = in_ticks(alloc, document, value, key, why)?;
            let wrong = value_is(alloc, value, why.as_str())?;
            about(alloc, file, document, &row, wrong.as_str())
        }
        None => about(alloc, file, document, &row, why),
    }
}

/// Why a value is hardly meant; of a number of ticks also how long they are.
fn in_ticks(
    alloc: Global,
    document: &Table,
    value: &Value,
    key: Key,
    why: &str,
) -> Result<String, AllocError> {
    match (key, value, tick_if_told(document)) {
        (Key::Timer(_), Value::Integer(_), Some(tick_ms)) => {
            format!(in alloc; "in ticks of {tick_ms} ms, {why}")
        }
        _ => String::from_str(alloc, why),
    }
}
