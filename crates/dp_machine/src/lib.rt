//! One computer's cycle of control, as a machine that holds its plant and its state.
//!
//! [`Machine::step`] takes the frame of the next cycle and answers what the thrusters are to do ([`Issue`]): a force for each in newtons,
//! the demand on surge, sway and yaw that the forces meet, and what the cycle warns of ([`Alarms`]). In a cycle
//! 1. the headings of the gyros and the winds of the sensors are fused, each round its last fused angle (`dp_fuse`), and the groups of
//!    thrusters that are heard of become ready or lost; any other group stays as it was;
//! 2. the readings of the position references join their windows, the references are tested (`dp_reftest`), and the usable places, without
//!    their lever arms, become one (`dp_fuse`);
//! 3. the control law demands surge, sway and yaw of the estimates before the cycle, against the wind's push (`dp_pid`), within the box of
//!    the case of the groups that are lost now; the case's rows share the demand out to the thrusters (`dp_alloc`);
//! 4. the observers bring the estimates of the plane and of yaw to the next cycle (`dp_observer`);
//! 5. the mean demand of the last 60 cycles says which further loss of a group would not be survived (`dp_consequence`).
//!
//! [`Machine::new`] asks that no case of the plant is refused ([`dp_alloc::first_refused`]), and for the answer of [`dp_cert::accept`] to
//! the plant's own gains and certificate; `specs/Accepted` says both in one word. `step` asks for a frame in range, of the next cycle, in
//! which no group reports that the plant doesn't have.
//!
//! `specs/Step` has the cycle as one definition, at any setpoint (`step_at`; `step_of` is that with the plant's own), `specs/Groups` the
//! mask and `specs/Alarms` the bits of the wires; `specs/Run` folds the cycle over frames, `specs/Reference` is one computer alone over a
//! whole record. A machine is seen as the record `MachineValue`: its plant, its [`State`], and how often it was stepped. `step` is exactly
//! `step_of`; [`Machine::state`] shows all of the state, after [`Machine::set`] the machine has the given one, and [`Machine::skew`] sets
//! the plane alone. The state stays in the ranges of `specs/Ranges`, whatever the frames bring: the plane in the certified set of the
//! accepted gains, so that none of its coordinates leaves ±2^56, and yaw in ranges that its gains keep. No call but [`Machine::new`] takes
//! memory, and none copies a machine.
//!
//! Places are nanometres in the local frame, headings in a state nanodegrees and in a frame hundredths of a degree, speeds of the wind
//! mm/s, demands nanometres (for yaw nanodegrees) per cycle squared. The loop is that of Fossen's Handbook of Marine Craft Hydrodynamics
//! and Motion Control: nonlinear passive observer and PID law; redundant sensors, and the consequence analysis, as in IMO MSC.1/Circ.1580.
#![tactic(auto)]

mod advance;
mod alarms;
mod cycle;
mod demands;
mod estimates;
mod groups;
mod issue;
pub mod laws;
mod machine;
mod references;
mod sensed;
mod state;

pub use dp_plant::{Alarms, Cause};
pub use dp_reftest::Kept;
pub use issue::Issue;
pub use machine::Machine;
pub use state::State;
