//! The certificate of a plant's gains: what shows that one bad position reference can move the thrusters only so far.
//!
//! A vessel is held by an observer and a control law, which together make a loop of whole numbers. Take two runs of that loop from one
//! state that differ in what one position reference says. A certificate shows that the difference of the two runs stays bounded, whatever
//! the reference says and for however long: the loop is incrementally stable. It does so by a Lyapunov form V, a quadratic form of the
//! difference of two states (Fossen's Handbook of Marine Craft Hydrodynamics and Motion Control has the observer and such forms; the
//! whole-number certificate is this project's own). Each cycle multiplies the root of V by at most `rho` over 2^30, which is below one,
//! and adds at most what the measured places (`b`) and the roundings (`r`) bring in.
//!
//! The control law has limits, so its loop is not linear. Along an axis it lies, though, between three linear loops, the vertices: the
//! thrust saturated, the bias clamped, and neither. What shrinks V at the vertices shrinks it everywhere between them. So a certificate
//! has to show, by lists of squares which [`dp_form`] checks, that
//!
//! - V is nowhere below 0, and each vertex of surge and of sway shrinks it;
//! - `b` and `r` are large enough for a measured place and for the roundings;
//! - V bounds the demand on each axis, by `g`, and each coordinate, by `span`;
//! - every state that the plant can reach is within ±2^56, and its form within 128 bits.
//!
//! [`accept`] answers Ok exactly where all of that holds and every number is in its range, and otherwise names the first condition that
//! fails, with its numbers. [`Accepted`] keeps gains and certificate, and that they were accepted, as a fact of its type.
//! [`Accepted::bounds`] gives for each thruster of a case the two numbers C and R: two runs in which the two other references stay within
//! s nanometres of each other have forces that differ by at most (C·s + R) / 2^20 newtons.
//!
//! A plant without a wave filter has three states for each coordinate (place, bias, velocity), one with a filter five (and the wave
//! states p and q); everything here is for both. `specs/Loop` and `specs/WaveLoop` have the vertices row by row, `specs/Ranges` each key
//! with its range, `specs/Valid` the conditions in their order, `specs/Sound` what they say of every vector, and `specs/Bound` C and R.
#![tactic(auto)]

mod accepted;
mod bound;
mod faults;
mod five_states;
mod forms;
mod inside;
mod judge;
mod judged;
pub mod laws;
mod loops;
mod matrices;
mod ranges;
mod root_numbers;
mod shown;
mod three_states;
mod width;

pub use accepted::{Accepted, accept};
pub use faults::CertFault;
pub use judged::{Which, matrix3, matrix5};
pub use root_numbers::{UnderRoots, under_roots};
