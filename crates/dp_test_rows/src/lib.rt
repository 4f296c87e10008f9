//! What the tests of several crates share: how a row of a table is read, one string each, and the sample plants, as they are and with lines
//! edited.
//!
//! It holds no test and nothing of the program, and stands on `dp_plant` alone, so that the crates of tests beside each other have it
//! once.
#![tactic(auto)]

mod plants;
mod rows;
pub mod samples;

pub use plants::{edited, edited_text, plant_with};
pub use rows::{cut, natural, number, parts};
