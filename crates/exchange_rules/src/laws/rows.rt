//! Laws of the abstract exchange: translation rows that are set.

ghost use Rattle.exchange_rules.specs.LawsOfSettingRows.{others_are_added, rows_that_are_there_are_replaced, set_rows_lead, setting_removes_and_adds};

/// After a row was set its digits lead by it, and every other row is as before; there is one more only if none of its
/// key and digits was there. One that was there is replaced, whatever memory there is. If none was, the row is added,
/// or refused, just as by the order that adds it. Setting a row is removing the old one and adding it, where both are
/// done, in one event (Q.714 §2.4).
pub fn rows_are_set_in_one_event()
    ensures leads { set_rows_lead }
    ensures replaced { rows_that_are_there_are_replaced }
    ensures added { others_are_added }
    ensures both { setting_removes_and_adds }
{}
