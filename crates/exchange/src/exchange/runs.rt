//! Calls in a row.

ghost use Rattle.std.specs.Prelude.{◌≡◌, length, IfOk, OnErr};
ghost use Rattle.std.specs.Option.{option_map};
ghost use Rattle.m2pa_codec.specs.Frames.{spelled};
ghost use Rattle.exchange.specs.KeptQueues.{kept};
ghost use Rattle.exchange_rules.specs.Queues.{whole};
ghost use Rattle.exchange.specs.Calls.{asked, asked_each, StandsFor};
ghost use Rattle.exchange_rules.specs.Exchange.{frame_to_take, taken};
ghost use Rattle.exchange.specs.Runs.{answer_to_call, after_call, answers_to, after_calls};
ghost use Rattle.exchange_rules.specs.First.{Abstract};

use super::Exchange;
use crate::event::{Answer, Call};
use crate::frame_text::FrameText;
use crate::memory::NoMemory;
use m2pa_codec::BUFFER_OCTETS;
use settings::LinkId;
use std::alloc::Global;

impl Exchange {
    /// Makes calls in a row, and returns the answer to each.
    ///
    /// Returns NoMemory only if there is no memory for the answers; then no call was made.
    pub fn run(&mut self, alloc: Global, calls: &[Call<'_>]) -> Result<Vec<Answer>, NoMemory>
        // For every abstract state that the exchange stood for, the answers are those of the abstract exchange,
        ensures answers { (a : Abstract) → StandsFor self.old a →
            IfOk result (λ answers. answers.items ≡ answers_to whole (asked_each calls.now answers.items) a) }
        // and the exchange stands for the state after all calls.
        ensures state { (a : Abstract) → StandsFor self.old a →
            IfOk result (λ answers. StandsFor self.new (after_calls whole (asked_each calls.now answers.items) a)) }

        // The same on what is kept.
        ensures kept_answers { IfOk result (λ answers.
            answers.items ≡ answers_to kept (asked_each calls.now answers.items) self.old) }
        ensures kept_state { IfOk result (λ answers.
            self.new ≡ after_calls kept (asked_each calls.now answers.items) self.old) }
        // There is an answer to each call.
        ensures count { IfOk result (λ answers. length answers.items ≡ length calls.now) }
        ensures err { OnErr result (self.new ≡ self.old) }
    {
        let mut answers = Vec::with_capacity(alloc, calls.len())?;
        for call in calls {
            answers.push_reserved(self.answer(call));
        }
        Ok(answers)
    }

    /// Makes one call.
    fn answer(&mut self, call: &Call<'_>) -> Answer
        ensures answer { result ≡ answer_to_call kept (asked call.now result) self.old }
        ensures state { self.new ≡ after_call kept (asked call.now result) self.old }
    {
        match call {
            Call::Step(event) => Answer::Stepped(self.happen(event)),
            Call::Take(link) => Answer::Taken(self.text(*link)),
            Call::Wants(link) => Answer::Wanted(self.wants(*link)),
        }
    }

    /// The octets of the next frame that goes out on a link.
    fn text(&mut self, link: LinkId) -> Option<FrameText>
        ensures text { result ≡ option_map spelled (frame_to_take kept self.old link) }
        ensures state { self.new ≡ taken kept self.old link }
    {
        let mut buffer = [0; BUFFER_OCTETS];
        let count = self.write_next_frame(link, &mut buffer)?;
        Some(FrameText::new(&buffer[..count]))
    }
}
