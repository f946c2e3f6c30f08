//! What each octet leaves after 8 to 64 steps of the division.

mod far;
mod near;

use far::{AFTER_40, AFTER_48, AFTER_56, AFTER_64};
use near::{AFTER_8, AFTER_16, AFTER_24, AFTER_32};

/// A table for each octet of eight, the last octet first: what it leaves after 8 steps, after 16, and so on up to 64.
pub(crate) const TABLES: [[u32; 256]; 8] = [
    AFTER_8, AFTER_16, AFTER_24, AFTER_32, AFTER_40, AFTER_48, AFTER_56, AFTER_64,
];
