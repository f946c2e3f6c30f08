//! What can be wrong with the words behind `title`, and behind `test`.

ghost use Rattle.std.specs.Prelude.{◌≡◌, ◌≤◌, length};
ghost use Rattle.console.specs.TitleMistakes.{title_front, title_reason};

/// Which word behind `title`, or behind `test`, is wrong or missing, the first of them.
#[derive(Clone, Copy)]
pub enum TitleMistake {
    /// It is none of `add`, `set` and `remove`.
    Verb,
    /// The translation type.
    Translation,
    /// The numbering plan.
    Plan,
    /// The nature of address.
    Nature,
    /// The digits.
    Digits,
    /// More words are behind those that name the row to be removed.
    BehindName,
    /// The point.
    Point,
    /// The route is neither `title` nor `ssn`.
    Route,
    /// The subsystem number.
    Ssn,
    /// The backup point.
    Backup,
    /// What is behind is neither a backup nor a change of titles, or more than these.
    Behind,
    /// The plan that a title gets.
    NewPlan,
    /// The nature that a title gets.
    NewNature,
    /// How many digits a title loses.
    Remove,
    /// The digits that a title gets.
    Add,
    /// It isn't `title`, behind `test`.
    Tested,
    /// More words are behind those of the title that is tested.
    BehindTested,
}

impl TitleMistake {
    /// The words before the one that is wrong: those of `order`, which has all words of a row, if it is behind those that
    /// name the row.
    pub(crate) fn front(self, order: &'static str) -> &'static str
        requires { length order.now ≤ 12 }
        ensures front { result.now ≡ title_front order.now self }
        ensures short { length result.now ≤ 12 }
    {
        match self {
            TitleMistake::Verb
            | TitleMistake::Translation
            | TitleMistake::Plan
            | TitleMistake::Nature
            | TitleMistake::Digits => "title",
            TitleMistake::BehindName => "title remove",
            TitleMistake::Tested => "test",
            TitleMistake::BehindTested => "test title",
            _ => order,
        }
    }

    /// What must be.
    pub(crate) fn reason(self) -> &'static str
        ensures reason { result.now ≡ title_reason self }
        ensures short { length result.now ≤ 80 }
    {
        match self {
            TitleMistake::Verb => "add, set or remove must be behind it",
            TitleMistake::Translation => "T must be 0 to 255",
            TitleMistake::Plan => "P must be 0 to 15",
            TitleMistake::Nature => "N must be 0 to 127",
            TitleMistake::Digits => "DIGITS must be 1 to 32 of 0 to 9 and a to f",
            TitleMistake::BehindName => "nothing may be behind DIGITS",
            TitleMistake::Point => "POINT must be a point code",
            TitleMistake::Route => "ROUTE must be title or ssn",
            TitleMistake::Ssn => "SSN must be 1 to 255, or - if ROUTE is title",
            TitleMistake::Backup => "a point code must be behind backup",
            TitleMistake::Behind => {
                "behind SSN may be backup POINT, then changed PLAN NATURE REMOVE ADD"
            }
            TitleMistake::NewPlan => "PLAN must be 0 to 15, or -",
            TitleMistake::NewNature => "NATURE must be 0 to 127, or -",
            TitleMistake::Remove => "REMOVE must be 0 to 32",
            TitleMistake::Add => "ADD must be 1 to 32 of 0 to 9 and a to f, or -",
            TitleMistake::Tested => "title must be behind it",
            TitleMistake::BehindTested => "nothing may be behind DIGITS",
        }
    }
}
