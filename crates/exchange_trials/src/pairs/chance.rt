//! Random schedules.

use super::ends::{bring_up, come_up, other, settle, submit};
use crate::dice::Dice;
use crate::harness::{Deed, Doing, Network};
use crate::rounds::{Clock, Each, RETURNS, do_each, do_each_once};
use crate::shape::code_of;
use crate::throws::{FLOWS, Odds, Throw, play, thrown};
use exchange::{TitleDigits, TitleKey, TitleRoute, TitleRow};

/// How many steps a schedule has.
const STEPS: usize = 400;

/// What they are.
const ODDS: Odds = Odds {
    times: 200,
    throws: [
        (39, Throw::Submit),
        (1, Throw::Translate),
        (70, Throw::Do(Deed::Take)),
        (67, Throw::Deliver),
        (4, Throw::Do(Deed::LoseStatus)),
        (4, Throw::Do(Deed::DoubleStatus)),
        (3, Throw::Lose),
        (3, Throw::Tick),
        (1, Throw::Operate),
        (5, Throw::Reopen),
        (3, Throw::Do(Deed::OpenSecond)),
    ],
};

/// What the translation row of operators has besides its one digit.
const KEY: TitleKey = TitleKey {
    translation: 0,
    plan: 1,
    nature: 4,
};

const DIGIT: u8 = 7;

/// A schedule by the dice of its number. Says whether all ended as it should.
pub(crate) fn throw_steps(network: &mut Network, run: u16) -> bool {
    let mut dice = Dice::new(run as u64);
    let mut went = bring_up(network);
    for _ in 0..STEPS {
        went &= step(network, &mut dice);
    }
    settle(network, Clock::STILL);
    bring_back(network) && went
}

/// A step of a schedule. Says whether a translation row was added or removed, if it was to be.
fn step(network: &mut Network, dice: &mut Dice) -> bool {
    match thrown(network.shape, dice, ODDS) {
        Some((Throw::Submit, link)) => {
            submit(network, link.here.point, dice.octet() % FLOWS);
            true
        }
        Some((Throw::Translate, link)) => translate(network, link.here.point),
        Some((what, link)) => {
            play(network, dice, what, link);
            true
        }
        None => false,
    }
}

/// The operator of an end adds a translation row that leads to the other end, or removes it if it is there. Says
/// whether that was done.
pub(crate) fn translate(network: &mut Network, end: u16) -> bool {
    let was_there = has_title(network, end);
    if let Some(doing) = title_order(was_there, other(end)) {
        network.turn(end, doing);
    }
    has_title(network, end) != was_there
}

/// To remove the row if it is there, and otherwise to add it, leading to this point.
fn title_order(is_there: bool, point: u16) -> Option<Doing> {
    if is_there {
        let mut digits = TitleDigits::new();
        digits.push(DIGIT);
        return Some(Doing::RemoveTitle(KEY, digits));
    }
    let TitleKey {
        translation,
        plan,
        nature,
    } = KEY;
    let route = TitleRoute::Title(None);
    let row = TitleRow::new(translation, plan, nature, &[DIGIT], code_of(point), route)?;
    Some(Doing::AddTitle(row))
}

/// Whether an end has a translation row.
fn has_title(network: &Network, end: u16) -> bool {
    match network.site(end) {
        Some(site) => site.node.shown().title_count() != 0,
        None => false,
    }
}

/// Each operator lets all links open, and all that can come back do, several times. Says whether all came to rest after
/// that.
fn bring_back(network: &mut Network) -> bool {
    do_each(network, Each::Do(Deed::Activate));
    let mut settled = false;
    for _ in 0..RETURNS {
        do_each_once(network, Each::LoseUnserved);
        settle(network, Clock::STILL);
        settled = come_up(network);
    }
    settled
}
