//! What a node of a network books.

ghost use Rattle.std.specs.Prelude.{◌≡◌, ◌<◌, ◌++◌, [], option_to_list, vec_len, vec_capacity, OnOk};
ghost use Rattle.network_rules.specs.Networks.{goes_onward, is_refused};
ghost use Rattle.network_world.specs.KeptNodes.{arrivals, entered_of, refused_of};

use crate::arrival::Arrival;
use crate::bringing::whither_goes;
use crate::hearing::Heard;
use exchange::NoMemory;
use mtp3_codec::Discrimination;
use settings::{LinkId, Msu, Outcome, Settings};

/// All that a node took in and all that came to it; of what it took in, what entered the network there; and the user
/// messages for other points that came and were refused.
#[derive(Drop)]
pub(crate) struct Books {
    pub accepted: Vec<Msu>,
    pub arrived: Vec<Arrival>,
    pub entered: Vec<Msu>,
    pub refused: Vec<Msu>,
}

/// Makes room for one entry in each book.
pub(crate) fn make_room(books: &mut Books) -> Result<(), NoMemory>
    ensures accepted { books.new.accepted.items ≡ books.old.accepted.items }
    ensures arrived { books.new.arrived.items ≡ books.old.arrived.items }
    ensures entered { books.new.entered.items ≡ books.old.entered.items }
    ensures refused { books.new.refused.items ≡ books.old.refused.items }
    ensures accepted_room { OnOk result (vec_len books.new.accepted < vec_capacity books.new.accepted) }
    ensures arrived_room { OnOk result (vec_len books.new.arrived < vec_capacity books.new.arrived) }
    ensures entered_room { OnOk result (vec_len books.new.entered < vec_capacity books.new.entered) }
    ensures refused_room { OnOk result (vec_len books.new.refused < vec_capacity books.new.refused) }
{
    books.accepted.reserve(1)?;
    books.arrived.reserve(1)?;
    books.entered.reserve(1)?;
    books.refused.reserve(1)?;
    Ok(())
}

/// All books begin anew.
pub(crate) fn begin_anew(books: &mut Books)
    ensures accepted { books.new.accepted.items ≡ [] }
    ensures arrived { books.new.arrived.items ≡ [] }
    ensures entered { books.new.entered.items ≡ [] }
    ensures refused { books.new.refused.items ≡ [] }
{
    books.accepted.clear();
    books.arrived.clear();
    books.entered.clear();
    books.refused.clear();
}

/// Books what a user part handed over: what that brought in.
pub(crate) fn book_submission(books: &mut Books, heard: &Heard)
    requires accepted_room { vec_len books.old.accepted < vec_capacity books.old.accepted }
    requires entered_room { vec_len books.old.entered < vec_capacity books.old.entered }
    ensures accepted { books.new.accepted.items ≡ books.old.accepted.items ++ option_to_list heard.now.brought }
    ensures arrived { books.new.arrived ≡ books.old.arrived }
    ensures entered { books.new.entered.items ≡ books.old.entered.items ++ option_to_list heard.now.brought }
    ensures refused { books.new.refused ≡ books.old.refused }
{
    join(&mut books.accepted, heard.brought);
    join(&mut books.entered, heard.brought);
}

/// Books what came by a link, and what that brought in.
pub(crate) fn book_frame(books: &mut Books, settings: &Settings, link: LinkId, heard: &Heard)
    requires accepted_room { vec_len books.old.accepted < vec_capacity books.old.accepted }
    requires arrived_room { vec_len books.old.arrived < vec_capacity books.old.arrived }
    requires entered_room { vec_len books.old.entered < vec_capacity books.old.entered }
    requires refused_room { vec_len books.old.refused < vec_capacity books.old.refused }
    ensures accepted { books.new.accepted.items ≡ books.old.accepted.items ++ option_to_list heard.now.brought }
    ensures arrived { books.new.arrived.items ≡
        books.old.arrived.items ++ arrivals link (option_to_list heard.now.carried) }
    ensures entered { books.new.entered.items ≡ books.old.entered.items
        ++ entered_of (option_to_list heard.now.carried) settings.now (option_to_list heard.now.brought) }
    ensures refused { books.new.refused.items ≡ books.old.refused.items
        ++ refused_of (option_to_list heard.now.carried) settings.now heard.now.outcome }
{
    join(&mut books.accepted, heard.brought);
    arrive(&mut books.arrived, link, heard.carried);
    join(
        &mut books.entered,
        entered(settings, heard.carried, heard.brought),
    );
    join(
        &mut books.refused,
        refused(settings, heard.carried, &heard.outcome),
    );
}

/// A message joins others, if there is one.
fn join(messages: &mut Vec<Msu>, message: Option<Msu>)
    requires { vec_len messages.old < vec_capacity messages.old }
    ensures { messages.new.items ≡ messages.old.items ++ option_to_list message }
{
    if let Some(message) = message {
        messages.push_reserved(message);
    }
}

/// A message that came by a link joins others, if one did.
fn arrive(arrived: &mut Vec<Arrival>, link: LinkId, message: Option<Msu>)
    requires { vec_len arrived.old < vec_capacity arrived.old }
    ensures { arrived.new.items ≡ arrived.old.items ++ arrivals link (option_to_list message) }
{
    if let Some(message) = message {
        arrived.push_reserved(Arrival::new(link, message));
    }
}

/// What enters the network, of what a frame brought in: unless that came by the frame for another point.
fn entered(settings: &Settings, carried: Option<Msu>, brought: Option<Msu>) -> Option<Msu>
    ensures { option_to_list result ≡
        entered_of (option_to_list carried) settings.now (option_to_list brought) }
{
    match carried {
        Some(message) if goes_onward(settings, &message) => None,
        Some(_) | None => brought,
    }
}

/// The user message for another point that a frame newly carried, where it was refused.
fn refused(settings: &Settings, carried: Option<Msu>, outcome: &Outcome) -> Option<Msu>
    ensures { option_to_list result ≡ refused_of (option_to_list carried) settings.now outcome.now }
{
    let message = carried?;
    if goes_onward(settings, &message) && is_refused(outcome) && !message.is_management() {
        Some(message)
    } else {
        None
    }
}

/// Whether a message that comes to a node is for another point.
fn goes_onward(settings: &Settings, message: &Msu) -> bool
    ensures { result ≡ goes_onward settings.now message.now }
{
    match whither_goes(settings, message) {
        Discrimination::Transfer(_) => true,
        Discrimination::Here(_) | Discrimination::Refused(_) => false,
    }
}

/// Whether an outcome is a refusal.
fn is_refused(outcome: &Outcome) -> bool
    ensures { result ≡ is_refused outcome.now }
{
    match outcome {
        Outcome::Refused(_) => true,
        Outcome::Queued(_) | Outcome::Held => false,
        Outcome::Local | Outcome::Handled | Outcome::Ignored => false,
    }
}
