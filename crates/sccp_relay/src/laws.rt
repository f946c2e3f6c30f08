//! Laws of translation tables, for whoever keeps one. Each function states its law in its contract, and does nothing.

ghost use Rattle.std.specs.Prelude.{◌≡◌, ℕ, List, Ok};
ghost use Rattle.settings.specs.Configuration.{TitleEntry};
ghost use Rattle.sccp_codec.specs.declared.title.TitleKey.{TitleKey};
ghost use Rattle.sccp_relay.specs.Rows.{IsOrdered};
ghost use Rattle.sccp_relay.specs.Translation.{IsTranslation, translation};
ghost use Rattle.sccp_relay.specs.Laws.{added_stands, added_leaves, removed_is_gone, removed_leaves};
ghost use Rattle.sccp_relay.specs.Led as led;

/// An address has at most one translation, and it is the one that a table in its order gives.
pub fn one_translation()
    ensures { (rows : List TitleEntry) (key : TitleKey) (digits : List ℕ) (row : TitleEntry) → IsOrdered rows
        → IsTranslation rows key digits row → translation rows key digits ≡ Ok row }
{}

/// An added row is at its place, and every other row stays.
pub fn adding_a_row_leaves_the_others()
    ensures own { added_stands }
    ensures others { added_leaves }
{}

/// A removed row is gone, and every other row stays.
pub fn removing_a_row_leaves_the_others()
    ensures own { removed_is_gone }
    ensures others { removed_leaves }
{}

/// A message that goes on keeps the class or the return cause, the data, the optional parameters and the selection of
/// the one that came, and its title, unless the row changes that. Its addresses read at the point where the row leads
/// as they should (Q.714 §2.3, §2.4, §2.7). Besides, only an SSA goes on, in the place of an SST about a subsystem that
/// is here (Q.714 §5.3.4).
pub fn what_goes_on_reads_back()
    ensures { led.what_goes_on_reads_back }
{}

/// A UDTS returns a UDT that asked for it, an XUDTS an XUDT, and nothing else is returned: with the addresses exchanged
/// and the same data. To an address by subsystem number it goes to the point that this names, or where the message came
/// from, and never to a subsystem that is prohibited there (§2.3); to one by title, where the row of the title leads
/// (Q.714 §4.2).
pub fn a_udts_returns_a_udt()
    ensures { led.a_udts_returns_a_udt }
{}

/// However the rows of nodes lead to each other, an extended message goes on 14 times at most (Q.714 §2.3.1).
pub fn loops_of_titles_end()
    ensures { led.loops_of_titles_end }
{}
