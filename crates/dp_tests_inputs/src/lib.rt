//! Tests of the crates that read and write, over their public calls: numbers, squares, sentences, records, plant files, scripts, shelves,
//! blocks.
//!
//! A test is proved as any code is: that it keeps the conditions of what it calls, and that nothing in it overflows. A test module inside a
//! crate makes the gate prove that whole crate a second time. So the tests stand in crates of their own, which rest on all the others by
//! what they promise in public, and which are proved once. They hold nothing else. The tests of what controls stand in `dp_tests_control`,
//! those of the program beside its `main`.
//!
//! There is a module for each crate, named after it. The crate `dp_test_rows` reads the rows of tables, one string each, and has the sample
//! plants.
//!
//! What is compared with was made apart from the code that it is compared with. Beside that, the tests show that calls succeed where there
//! is memory, which no contract says.
#![tactic(auto)]

#[cfg(test)]
mod fixed;
#[cfg(test)]
mod form;
#[cfg(test)]
mod frame;
#[cfg(test)]
mod nav;
#[cfg(test)]
mod plant;
#[cfg(test)]
mod report;
#[cfg(test)]
mod script;
#[cfg(test)]
mod sentence;
#[cfg(test)]
mod shell;
#[cfg(test)]
mod stream;
#[cfg(test)]
mod trig;
