//! The places of the page's clients, each of which has one or is free.

ghost use Rattle.std.specs.Prelude.{◌<◌};

use super::client::PageClient;
use http_server::Service;
use status_page::PAGE_CLIENTS;
use std::alloc::{AllocError, Global};

/// As many places as there are clients at most, all of them free.
pub(crate) fn free_places(alloc: Global) -> Result<Vec<Option<PageClient>>, AllocError> {
    let mut places = Vec::with_capacity(alloc, PAGE_CLIENTS)?;
    for _ in 0..PAGE_CLIENTS {
        places.push(None)?;
    }
    Ok(places)
}

/// The first free place; if there is none, that of the client that makes way; if none does, the number of places.
pub(crate) fn place_for_one(places: &[Option<PageClient>]) -> usize {
    for (k, place) in places.iter().enumerate() {
        if place.is_none() {
            return k;
        }
    }
    first_to_go(places)
}

/// The place of the client that has waited longest for nothing: no request of it is to be answered, and no answer to be
/// written. If there is no such client, the number of places.
fn first_to_go(places: &[Option<PageClient>]) -> usize {
    let mut first = PAGE_CLIENTS;
    let mut least = u64::MAX;
    for (k, place) in places.iter().enumerate() {
        if let Some(client) = place {
            let since = client.idle_since_ms();
            if since < least {
                least = since;
                first = k;
            }
        }
    }
    first
}

/// A client has this place from now on.
pub(crate) fn put(places: &mut [Option<PageClient>], free: usize, client: PageClient) {
    if let Some(place) = places.get_mut(free) {
        *place = Some(client);
    }
}

/// Makes a read of each client.
pub(crate) fn read_each(places: &mut [Option<PageClient>]) {
    for place in places.iter_mut() {
        if let Some(client) = place {
            client.read();
        }
    }
}

/// Returns the first request that is found from a place on. True if there is one; the next search begins after it.
pub(crate) fn answer_next<S: Service>(
    places: &mut [Option<PageClient>],
    next: &mut usize,
    service: &mut S,
) -> bool {
    for _ in 0..PAGE_CLIENTS {
        let place = *next;
        *next = behind(place);
        if let Some(Some(client)) = places.get_mut(place)
            && client.advance(service)
        {
            return true;
        }
    }
    false
}

/// The place after this one; after the last one, the first.
fn behind(place: usize) -> usize
    ensures { result < PAGE_CLIENTS }
{
    place.saturating_add(1) % PAGE_CLIENTS
}

/// Makes a write to each client, and closes the connections that are over.
pub(crate) fn write_each(places: &mut [Option<PageClient>], now_ms: u64) {
    for place in places.iter_mut() {
        if let Some(client) = place
            && is_gone(client, now_ms)
        {
            clear(place);
        }
    }
}

/// Writes what waits for a client. True if its connection is over.
fn is_gone(client: &mut PageClient, now_ms: u64) -> bool {
    client.write(now_ms);
    client.is_over(now_ms)
}

/// A place is free from now on. The connection of the client in it is closed.
fn clear(place: &mut Option<PageClient>) {
    *place = None;
}

/// Whether there is something to read or to write now, or to answer if that may be.
pub(crate) fn are_busy(places: &[Option<PageClient>], may_answer: bool) -> bool {
    let mut are_busy = false;
    for place in places.iter() {
        if let Some(client) = place {
            are_busy = are_busy || client.is_busy() || may_answer && client.is_due();
        }
    }
    are_busy
}

/// When something is due at a client that no socket tells of: at the end of its time, or in the next second if a
/// request waits for that. All are milliseconds since the start.
pub(crate) fn first_due_ms(places: &[Option<PageClient>], next_second_ms: u64) -> u64 {
    let mut first = u64::MAX;
    for place in places.iter() {
        if let Some(client) = place {
            first = first.min(client.until_ms());
            if client.is_due() {
                first = first.min(next_second_ms);
            }
        }
    }
    first
}
