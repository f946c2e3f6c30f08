//! Settings as a file says them (TOML), those of the node and those of its server: what is read, the first fault, and
//! sentences about faults for a person.
#![tactic(auto)]

mod arrays;
mod document;
mod documents;
mod doubts;
mod durations;
pub mod fault;
mod faults;
mod key_rows;
mod known_keys;
pub mod limits;
mod names;
mod node_keys;
mod phrases;
mod placed_sentences;
mod places;
mod point_texts;
mod sentences;
pub mod serve;
mod shapes;
mod text_places;
mod ticks;
mod timers;
mod unknown;
mod values;
mod versions;

pub use document::{read, read_document};
pub use documents::{document_in, parse};
pub use doubts::{MOST_DOUBTS, value_warnings};
pub use fault::SettingsFault;
pub use faults::telling::MOST_FAULTS;
pub use faults::{all_faults, all_faults_begin, first_of_all_is_read, reading_is_checked};
pub use key_rows::{KeyRow, entry_key, lone_key};
pub use limits::{FirstLimits, SHORT_NAME_OCTETS};
pub use phrases::{missing, must_be, value_is};
pub use placed_sentences::all_sentences;
pub use places::{about, value_at};
pub use sentences::sentence;
pub use text_places::TextPlace;
pub use unknown::warnings;
