//! The console of a node: what it shows, line by line, the orders that it accepts, and what is wrong with the lines that
//! it doesn't.
#![tactic(auto)]

mod change_words;
mod client_words;
pub mod commands;
pub mod flags;
pub mod laws;
mod line;
pub mod links;
pub mod losses;
pub mod malformed;
mod mistakes;
pub mod names;
pub mod nearest_link;
mod nearest_word;
pub mod notices;
pub mod numbers;
pub mod order;
pub mod reroutings;
pub mod route_lines;
pub mod settings_lines;
pub mod settings_part;
mod settings_values;
pub mod subsystems;
pub mod timer_keys;
pub mod title_answers;
mod title_mistakes;
pub mod title_tests;
pub mod title_words;
pub mod titles;
pub mod trimming;
pub mod words;

pub use commands::Command;
pub use flags::{FLAGS, show_flags};
pub use line::{LINE_OCTETS, push_number, push_point};
pub use links::show_links;
pub use losses::{LOSSES, show_losses};
pub use malformed::MalformedAnswer;
pub use names::{link_name, set_name};
pub use nearest_link::{NO_LINK_OCTETS, no_link_answer};
pub use notices::show_notices;
pub use numbers::read_number;
pub use order::{OrderText, order_by};
pub use reroutings::{REROUTINGS, show_reroutings};
pub use route_lines::{push_sets, show_routes};
pub use settings_lines::{ROWS_OCTETS, SettingsRows, settings_entries, settings_rows};
pub use settings_part::{SETTINGS_PARTS, SettingsPart};
pub use subsystems::show_subsystems;
pub use timer_keys::{KeyedTimer, TIMERS, keyed_timer};
pub use title_answers::{TITLE_ANSWER_OCTETS, TitleAnswer, title_answer};
pub use title_tests::title_tested;
pub use title_words::RowName;
pub use titles::show_titles;
pub use trimming::{CLIENT_LINE_OCTETS, SpacedLine};
