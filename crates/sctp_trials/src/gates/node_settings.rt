//! The settings of the three nodes.

use exchange::Settings;
use settings_file::{SettingsFault, read};
use std::alloc::Global;

/// What the settings of all nodes say.
const COMMON: &str = r#"version = 1
network = 2
window = 128
pool = 1000
users = [5]
subsystems = [8]
timers = { l1 = 10, l2 = 10, l3 = 10, l4 = 3, l6 = 20, l7 = 5, t1 = 4, t2 = 6, t3 = 4, t4 = 4, t6 = 4, t8 = 3, t10 = 8 }
"#;

/// What those of the nodes at points 1, 2 and 3 say besides.
pub const FIRST: &str = r#"own = 1
set = [{ name = "n2", adjacent = 2 }]
link = [{ name = "l2-0", set = "n2", slc = 0 }, { name = "l2-1", set = "n2", slc = 1 }]
destination = [{ point = 2, sets = ["n2"] }, { point = 3, sets = ["n2"] }]
"#;

pub const SECOND: &str = r#"own = 2
set = [{ name = "n1", adjacent = 1 }, { name = "n3", adjacent = 3 }]
link = [
  { name = "l1-0", set = "n1", slc = 0 }, { name = "l1-1", set = "n1", slc = 1 },
  { name = "l3-0", set = "n3", slc = 0 },
]
destination = [{ point = 1, sets = ["n1"] }, { point = 3, sets = ["n3"] }]
"#;

pub const THIRD: &str = r#"own = 3
set = [{ name = "n2", adjacent = 2 }]
link = [{ name = "l2-0", set = "n2", slc = 0 }]
destination = [{ point = 1, sets = ["n2"] }, { point = 2, sets = ["n2"] }]
"#;

/// The settings of a node, of which a text says what is its own.
pub fn settings_of(alloc: Global, own: &str) -> Result<Settings, SettingsFault> {
    let mut text = String::from_str(alloc, COMMON)?;
    text.push_str(own)?;
    read(alloc, text.as_str())
}
