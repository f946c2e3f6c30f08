//! SACKs that come.

ghost use Rattle.std.specs.Prelude.{◌≡◌, ◌≤◌, ◌^◌, if◌then◌else◌};
ghost use Rattle.sctp_codec.specs.Values.{blocks_of};
ghost use Rattle.sctp_sending.specs.Congestion.{most_window};
ghost use Rattle.sctp_sending.specs.Sending.{
  confirmation,
  makes_progress,
  acknowledged,
  with_named_measured,
  congestion_by,
  burst_octets,
};
ghost use Rattle.sctp_sending.specs.Acknowledging.{names_behind, acknowledged_by, progress_by};

use crate::acknowledgement::Acknowledgement;
use crate::confirmation::Confirmation;
use crate::sender::confirming::measure;
use crate::sender::{BURST_OCTETS, Sender};
use sctp_codec::Blocks;

impl Sender {
    /// Takes a SACK: its cumulative TSN, the window that it tells, and its gap blocks. One that is behind what is
    /// confirmed, or that confirms what didn't go out, changes nothing (RFC 9260 §6.2.1, §6.3.2, §7.2).
    pub fn acknowledge(
        &mut self,
        cumulative: u32,
        window: u32,
        blocks: Blocks<'_>,
        now: u64,
    ) -> Acknowledgement
        requires { now ≤ 2 ^ 63 }
        ensures confirmation { result.confirmation ≡ confirmation self.old cumulative }
        ensures progress { result.makes_progress
            ≡ progress_by result.confirmation now (blocks_of blocks.entry) self.old }
        ensures sending { self.new ≡ acknowledged_by result.confirmation now window (blocks_of blocks.entry) self.old }
    {
        let confirmation = self.confirmation(cumulative);
        let makes_progress = match confirmation {
            Confirmation::Of(count) => self.take_sack(count as usize, window, blocks, now),
            Confirmation::Old | Confirmation::Beyond => false,
        };
        Acknowledgement {
            confirmation,
            makes_progress,
        }
    }

    /// Takes a SACK that confirms the first messages; returns whether it confirms some, or names one for the first
    /// time.
    #[tactic(auto, unfolding(crate::specs::Sending::acknowledged))]
    fn take_sack(&mut self, count: usize, window: u32, blocks: Blocks<'_>, now: u64) -> bool
        requires count { count ≤ self.old.went }
        requires now { now ≤ 2 ^ 63 }
        ensures progress { result
            ≡ makes_progress self.old now count (names_behind (blocks_of blocks.entry) self.old count now) }
        ensures sending { self.new
            ≡ acknowledged self.old now window count (names_behind (blocks_of blocks.entry) self.old count now) }
    {
        let full = self.congestion.window() <= self.outbox.under_way();
        let confirmed = self.take_off(count, now);
        let named = self.outbox.name_by(blocks);
        let any_lost = self.outbox.pass_over_first(named.reach);
        self.congest(any_lost, confirmed + named.octets, full);
        self.measure_named(now);
        self.peer_window = window.saturating_sub(self.outbox.under_way());
        self.settle(count, now);
        count > 0 || named.octets > 0
    }

    /// What a SACK makes of the congestion window: a message was lost by it, or it confirmed or named these octets.
    fn congest(&mut self, any_lost: bool, octets: u32, full: bool)
        requires { octets ≤ most_window }
        ensures { self.new ≡ record self.old {
          congestion = congestion_by self.old.congestion any_lost self.old.went octets full;
          burst = if any_lost then burst_octets else self.old.burst;
        } }
    {
        if any_lost {
            self.burst = BURST_OCTETS;
            self.congestion.lose(self.outbox.went());
        } else {
            self.congestion.grow(octets, full);
        }
    }

    /// Measures the round trip of the message that is timed, if a SACK named it.
    fn measure_named(&mut self, now: u64)
        ensures { self.new ≡ with_named_measured self.old now }
    {
        if let Some(timed) = self.timed {
            if self.outbox.get(timed.place).is_named() {
                measure(&mut self.round_trips, Some(timed), self.outbox.went(), now);
                self.timed = None;
            }
        }
    }
}
