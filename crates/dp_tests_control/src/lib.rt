//! Tests of the crates that control, over their public calls: certificates, cases, reference tests, fusion, the control law, one computer and
//! its spelled state, voters, the world of three computers. Those of the crates that read and write stand in `dp_tests_inputs`, with why
//! tests stand in crates of their own.
//!
//! There is a module for each crate, named after it; `allocation` has those of `dp_alloc`, and `world` those of `dp_core`. [`words`] reads
//! what a row says of ballots and orders, and [`samples`] has gains and frames.
#![tactic(auto)]

#[cfg(test)]
mod allocation;
#[cfg(test)]
mod cert;
#[cfg(test)]
mod codec;
#[cfg(test)]
mod consequence;
#[cfg(test)]
mod exchange;
#[cfg(test)]
mod fuse;
#[cfg(test)]
mod machine;
#[cfg(test)]
mod pid;
#[cfg(test)]
mod reftest;
#[cfg(test)]
mod replaced;
#[cfg(test)]
mod samples;
#[cfg(test)]
mod voter;
#[cfg(test)]
mod words;
#[cfg(test)]
mod world;
