//! Laws of the client. Each function states its law in its contract, and does nothing.

ghost use Rattle.program.specs.ConsoleLaws.{outcomes_answer, LinesAnswer, ShownAnswersNone, TestsAnswer};

/// What a console says of a line that always has an answer is read as it is meant. Of the outcomes, those that say that
/// something wasn't done are refusals, and no other is, nor closes one the connection. That a line is malformed is a
/// refusal, and closes the connection if it comes first. What `users`, `watch`, `watch frames` and `quit` are answered,
/// and `help`, is no refusal, nor is what `stop` is, which closes it.
pub fn answers_are_heard_as_they_are_meant()
    ensures outcomes { outcomes_answer }
    ensures others { LinesAnswer }
{}

/// No line that is shown, and no notice, is taken for an answer: neither for a refusal, nor for one to another line.
pub fn what_is_shown_answers_nothing()
    ensures { ShownAnswersNone }
{}

/// `show link` of a link that isn't there, and a test of a title that would be refused, are answered by a refusal.
pub fn tests_are_answered_by_refusals()
    ensures { TestsAnswer }
{}
