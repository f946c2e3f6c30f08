//! Orders to change over and their answers, as they pass in frames.

use super::joining::Link;
use super::network::Network;
use super::site::carried;
use crate::harness::count;
use exchange::{FrameText, Label, Msu};

/// The heading of an order to change over, XCO (Q.2210 §9.8).
const ORDER: u8 = 0x31;

/// The heading of its answer, XCA (Q.2210 §9.8).
const ANSWER: u8 = 0x41;

/// The place of the heading of a management message: behind the label (Q.704 §15).
const HEADING_PLACE: usize = 4;

/// An order or an answer about a link.
#[derive(Clone, Copy)]
pub(crate) struct Word {
    /// Whether it is an order.
    pub is_order: bool,
    /// The point that made it.
    pub from: u16,
    /// The point that it is for.
    pub to: u16,
    /// The code of the link.
    pub code: u8,
}

/// How many orders and answers were seen at a node.
#[derive(Clone, Copy, Default)]
pub(crate) struct Words {
    /// Orders of the node that left it by a set which leads to another point than theirs,
    pub orders_elsewhere: u64,
    /// and answers.
    pub answers_elsewhere: u64,
    /// Orders about links that failed while no route led to their point.
    pub late: u64,
    /// Orders and answers of others for others: those that it passed on,
    pub passed: u64,
    /// and those that it refused.
    pub refused: u64,
}

impl Words {
    /// So many more.
    pub(crate) fn add(&mut self, more: Words) {
        count(&mut self.orders_elsewhere, more.orders_elsewhere);
        count(&mut self.answers_elsewhere, more.answers_elsewhere);
        count(&mut self.late, more.late);
        count(&mut self.passed, more.passed);
        count(&mut self.refused, more.refused);
    }
}

/// The order or the answer that a message is.
pub(crate) fn word_in(message: &Msu) -> Option<Word> {
    let heading = *message.sif().get(HEADING_PLACE)?;
    if message.service_indicator() != 0 || heading != ORDER && heading != ANSWER {
        return None;
    }
    let label = Label::at(message.sif());
    Some(Word {
        is_order: heading == ORDER,
        from: label.opc.code(),
        to: label.dpc.code(),
        code: label.sls.number(),
    })
}

impl Network {
    /// A frame leaves a node by a link. If it carries an order or an answer of the node itself, that is counted.
    pub(super) fn note_word(&mut self, link: Link, text: &FrameText) {
        let Some(message) = carried(text.octets()) else {
            return;
        };
        if let Some(word) = word_in(&message) {
            if word.from == link.here.point {
                self.note_own(link, word);
            }
        }
    }

    /// An order or an answer leaves the node that made it.
    fn note_own(&mut self, link: Link, word: Word) {
        let about = self.shape.link_between(word.from, word.to, word.code).here;
        let is_elsewhere = word.to != link.there.point;
        let Some(site) = self.site_mut(word.from) else {
            return;
        };
        let is_late = word.is_order && site.ask(about.link());
        count(&mut site.words.late, is_late as u64);
        count(
            &mut site.words.orders_elsewhere,
            (is_elsewhere && word.is_order) as u64,
        );
        count(
            &mut site.words.answers_elsewhere,
            (is_elsewhere && !word.is_order) as u64,
        );
    }
}
