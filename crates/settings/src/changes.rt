//! How translation rows of settings change titles.

ghost use Rattle.std.specs.Option.{option_map};
ghost use Rattle.std.specs.Prelude.{◌≡◌, ◌<◌, ◌≤◌, ◌^◌, None, Some, IfOk, IfSome, OnOk, IfErr};
ghost use Rattle.settings.specs.Checks.{natural, optional_fault};
ghost use Rattle.settings.specs.Meaning.{change_of};
ghost use Rattle.settings.specs.TitleFaults.{title_change_fault};

use crate::digits::added_digits;
use crate::numbers::{number, optional_number};
use crate::titles::{LAST_NATURE, LAST_PLAN};
use crate::{ChangeDraft, DraftFault, FaultKind, Key, TitleChange};
use signalling_types::Limits;

/// The octet, if it wasn't left out and is at most `last`.
fn optional_octet(value: Option<i64>, last: u16, key: Key) -> Result<Option<u8>, DraftFault>
    requires { last < 2 ^ 8 }
    ensures value { IfOk result (λ n. n ≡ option_map natural value) }
    ensures below { IfOk result (λ n. IfSome n (λ n. n ≤ last)) }
    ensures well { OnOk result (optional_fault 0 last key value ≡ None) }
    ensures fault { IfErr result (λ fault. optional_fault 0 last key value ≡ Some fault) }
{
    match optional_number(value, 0, last, key)? {
        Some(number) => Ok(Some(number as u8)),
        None => Ok(None),
    }
}

/// How the translation row at this index changes titles.
pub(crate) fn title_change(change: &ChangeDraft, place: usize) -> Result<TitleChange, DraftFault>
    ensures value { IfOk result (λ c. c ≡ change_of change.now) }
    ensures well { OnOk result (title_change_fault place change.now ≡ None) }
    ensures fault { IfErr result (λ fault. title_change_fault place change.now ≡ Some fault) }
{
    let plan = optional_octet(change.plan, LAST_PLAN, Key::TitleNewPlan(place))?;
    let nature = optional_octet(change.nature, LAST_NATURE, Key::TitleNewNature(place))?;
    let most = Limits::TITLE_DIGITS as u16;
    let removed = number(change.removed, 0, most, Key::TitleRemove(place))?;
    let key = Key::TitleAdd(place);
    let added = added_digits(change.added.as_str(), key)?;
    TitleChange::new(plan, nature, removed as u8, added.as_slice()).ok_or(DraftFault::At(
        FaultKind::Range,
        key,
    ))
}
