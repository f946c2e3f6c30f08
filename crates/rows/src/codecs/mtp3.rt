//! Labels, management messages and link tests, and the numbers of messages.

use crate::said::Said;
use crate::words::{number_of, word};
use mtp3_codec::{Label, LinkTest, MANAGEMENT_OCTETS, Management, TEST_OCTETS, discriminate};
use signalling_types::number::{distance, next, within};
use signalling_types::{MsuRef, Number24, PointCode};

/// Says a label, and whether it is the same when written again.
pub(crate) fn label(said: &mut Said, sif: &[u8]) {
    let label = Label::read(sif);
    said.show(&label);
    if let Some(label) = label {
        said.again(&label.write(), sif);
    }
}

/// Says what point 1 of a network does about a message.
pub(crate) fn route(said: &mut Said, row: &str, message: &[u8]) {
    if let ([sio, sif @ ..], Some(network)) = (message, number_of(row, 1)) {
        let message = MsuRef { sio: *sio, sif };
        said.show(&discriminate(message, PointCode::of_low_bits(1), network));
    }
}

/// Says a management message, and whether it is the same when written again between the points of its label.
pub(crate) fn management(said: &mut Said, sif: &[u8]) {
    match Management::read(sif) {
        Ok(message) => {
            let label = Label::at(sif);
            let mut out = [0xee; MANAGEMENT_OCTETS];
            let count = message.write(label.dpc, label.opc, &mut out);
            said.show(&message);
            said.again(&out[..count], sif);
        }
        Err(fault) => said.fault(fault.number(), &fault),
    }
}

/// Says a link test or an answer, and the answer to it from point 1 to point 2.
pub(crate) fn test(said: &mut Said, sif: &[u8]) {
    match LinkTest::read(sif) {
        Ok(test) => {
            let (here, there) = (PointCode::of_low_bits(1), PointCode::of_low_bits(2));
            let mut out = [0xee; TEST_OCTETS];
            let count = test.answer(there, here, &mut out);
            said.say(format_args!("{:?} slc {}", test.kind, test.slc.number()));
            said.octets(test.pattern);
            said.again(&out[..count], sif);
        }
        Err(fault) => said.fault(fault.number(), &fault),
    }
}

/// The number that a word says, if there is one.
fn number(row: &str, place: usize) -> Option<Number24> {
    Number24::new(number_of(row, place)?)
}

/// Says what a call with numbers answers.
pub(crate) fn numbers(said: &mut Said, row: &str) {
    match (word(row, 1), number(row, 2), number(row, 3), number(row, 4)) {
        ("next", Some(number), _, _) => said.say(next(number).value()),
        ("previous", Some(number), _, _) => said.say(number.previous().value()),
        ("distance", Some(from), Some(to), _) => said.say(distance(from, to)),
        ("within", Some(low), Some(high), Some(number)) => said.say(within(low, high, number)),
        _ => said.say("none"),
    }
}
