//! How many user messages wait at a node for another.

ghost use Rattle.std.specs.Prelude.{◌≡◌, ◌≤◌, ◌*◌, ◌^◌};
ghost use Rattle.pair_moves.specs.Laws.{sum_to};
ghost use Rattle.network_world.specs.Waiting.{kept_waiting, kept_waiting_on, picked_to};

use crate::between::{far_end, goes_to};
use crate::hearing::last_accepted;
use exchange::{Exchange, Pick};
use settings::{LinkId, Msu, PointCode};

/// Of the messages that a choice takes, those for a point.
#[derive(Drop)]
struct PickedTo<'a, P> {
    point: PointCode,
    pick: &'a P,
}

impl<'a, P: Pick> Pick for PickedTo<'a, P> {
    ghost picks = { λ choice message. picked_to choice.point (P.picks choice.pick.now) message };

    fn picks(&self, message: &Msu) -> bool {
        goes_to(self.point, message) && self.pick.picks(message)
    }
}

/// How many user messages for the far point that a choice takes wait at the near exchange: on its links, behind the
/// last message that the far one accepted there, and in Held.
pub(crate) fn count_waiting<P: Pick>(near: &Exchange, far: &Exchange, pick: &P) -> u128
    ensures { result ≡ kept_waiting (P.picks pick.now) near.now far.now }
{
    let links = near.settings().link_count() as u8;
    let on_links = count_on_links(near, far, links, pick);
    let point = far.settings().own();
    on_links + near.count_held_picked(&PickedTo { point, pick }) as u128
}

/// The same, on the first so many links. Each link's count has 64 bits, so the sum has room in 128.
fn count_on_links<P: Pick>(near: &Exchange, far: &Exchange, links: u8, pick: &P) -> u128
    ensures count { result ≡ sum_to (kept_waiting_on (P.picks pick.now) near.now far.now) links }
    ensures few { result ≤ links * 2 ^ 64 }
{
    let mut count = 0u128;
    for link in 0..links {
        count += count_on(near, far, LinkId::new(link), pick) as u128;
    }
    count
}

/// The same, on one link.
fn count_on<P: Pick>(near: &Exchange, far: &Exchange, link: LinkId, pick: &P) -> usize
    ensures { result ≡ kept_waiting_on (P.picks pick.now) near.now far.now link }
{
    let Some(other) = far_end(near.settings(), far.settings(), link) else {
        return 0;
    };
    let number = last_accepted(far, other);
    let point = far.settings().own();
    near.count_behind(link, number, &PickedTo { point, pick })
}
