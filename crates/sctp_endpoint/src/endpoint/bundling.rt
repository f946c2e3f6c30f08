//! Messages that are bundled into packets (RFC 9260 §6.10).

ghost use Rattle.std.specs.Prelude.{◌≡◌, ◌≤◌, ◌<◌, ◌^◌, [], ◌∷◌, length, map, is_some};
ghost use Rattle.sctp_codec.specs.Packets.{DataChunk};
ghost use Rattle.sctp_sending.specs.Sending.{next_place, gone_next};
ghost use Rattle.sctp_rules.specs.Confirming.{data_at, all_gone};
ghost use Rattle.sctp_bundling.specs.Bundling.{Adds};
ghost use Rattle.sctp_endpoint.specs.Flushing.{next_chunks, with_sender};

use crate::endpoint::Endpoint;
use sctp_bundling::{Draft, Watch};

/// How often it is looked for a message that may go out: once more than there are messages.
const TURNS: usize = 257;

impl Endpoint {
    /// The messages that may go out do, one after another.
    pub(super) fn bundle_all<W: Watch>(&mut self, draft: &mut Draft, now: u64, watch: &mut W)
        requires { now ≤ 2 ^ 63 }
        ensures bundled { Adds W.has watch.old watch.new draft.old draft.new
            (map DataChunk (all_gone now self.old.state.association.sender).chunks) }
        ensures left { self.new ≡ with_sender self.old (all_gone now self.old.state.association.sender).left }
    {
        for _ in 0..TURNS {
            if !self.bundle_next(draft, now, watch) {
                return;
            }
        }
    }

    /// The next message goes out, if one may, after what waits; returns whether one did.
    fn bundle_next<W: Watch>(&mut self, draft: &mut Draft, now: u64, watch: &mut W) -> bool
        requires { now ≤ 2 ^ 63 }
        ensures goes_on { result ≡ is_some (next_place self.old.state.association.sender) }
        ensures bundled { Adds W.has watch.old watch.new draft.old draft.new
            (next_chunks self.old.state.association.sender (next_place self.old.state.association.sender)) }
        ensures left { self.new ≡ with_sender self.old (gone_next self.old.state.association.sender now
            (next_place self.old.state.association.sender)) }
    {
        match self.sender.put_out(now) {
            Some(place) => {
                self.bundle_message(draft, place, watch);
                true
            }
            None => false,
        }
    }

    /// The message at an index is bundled after what waits.
    fn bundle_message<W: Watch>(&self, draft: &mut Draft, place: usize, watch: &mut W)
        requires { place < length self.now.state.association.sender.out }
        ensures { Adds W.has watch.old watch.new draft.old draft.new
            (DataChunk (data_at self.now.state.association.sender place) ∷ []) }
    {
        let carried = self.sender.data(place);
        draft.add_message(&carried, watch);
    }
}
