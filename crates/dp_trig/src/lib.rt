//! Cosine and sine of a heading or an azimuth, as whole numbers, from two small tables.
//!
//! A *sine pair* is `(cosine, sine)`, each part counted in units of 2^-30, so that 1073741824 stands for 1. Headings
//! and azimuths are hundredths of a degree, from 0 to 35999. The pair of 0 is `(1073741824, 0)`.
//!
//! [`Trig::new`] makes the tables and allocates nothing. [`Trig::pair`] answers in constant time: one look into each
//! table, four products, two divisions.
//!
//! # What is proved
//!
//! - `pair` answers exactly the pair that `specs/SinePair.antt` defines. The definition is a recurrence and no
//!   standard's. Rotations by 0 to 45 degrees are made from `(1073741824, 0)` by steps of one degree, and those by 0
//!   to 99 hundredths by steps of a hundredth. To put one rotation after another is to take the cosine and the sine
//!   of the sum of two angles, to divide by 2^30, and to cut toward zero. A heading up to 45 degrees is its whole
//!   degrees and then its hundredths; all others follow by exchanging the parts and by quarter turns.
//! - `cosine² + sine² <= 2^60` for every heading, so each part lies from -2^30 to 2^30. One rule on rotations gives
//!   this for all headings: two rotations that are no longer than 1 make one that is no longer than 1.
//! - [`laws`] says the same of the definition, for proofs that speak of a heading's pair and call nothing.
//!
//! # What is measured
//!
//! Closeness to the true cosine and sine is not promised. Over all 36000 headings no part was further off than
//! 2.0e-7, which is 215 units, and no pair was shorter than 1 by more than 1.7e-7.
#![tactic(auto)]

pub mod laws;
mod rotation;
mod trig;

pub use trig::Trig;
