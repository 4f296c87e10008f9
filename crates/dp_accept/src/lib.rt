//! A plant file, read and judged: its length, its keys, the plant's cases, and its gains with their certificate.
//!
//! What a file comes to is the relation `GivesPlant` of `specs/PlantFiles`; what judges the gains is an argument of it. [`accept_plant`]
//! takes the plant's own certificate. A caller that judges another one takes [`read_plant`], of which the gains aren't judged.
#![tactic(auto)]

mod lines;
mod plant_file;
mod refusals;
mod trouble;

pub use lines::{LINE, gains_line, plant_line};
pub use plant_file::{AcceptedPlant, accept_gains, accept_plant, read_plant};
pub use refusals::{GainsRefusal, Name, PlantRefusal, name_of};
pub use trouble::PlantTrouble;
