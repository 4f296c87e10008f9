//! What a line says, or why it says nothing.

use dp_plant::Gust;

/// What comes in on a wire.
#[derive(Clone, Copy, Debug, PartialEq, Eq)]
pub enum WireKind {
    /// A position reference.
    Position,
    /// A gyro compass.
    Gyro,
    /// A wind sensor.
    Wind,
    /// The state of a thruster group.
    Group,
}

/// What a line says.
#[derive(Clone, Copy, Debug, PartialEq, Eq)]
pub enum Reading {
    /// A place on the earth, in 10^-7 minute: the latitude within ±54000000000, which is 90 degrees, south negative; the longitude
    /// within ±108000000000, which is 180 degrees, west negative.
    Fix { lat: i64, lon: i64 },
    /// A place in the local frame, in nanometres: each coordinate within ±8796093000000.
    Local { north: i64, east: i64 },
    /// A true heading in hundredths of a degree, below 36000.
    Heading(u32),
    /// The wind relative to the vessel: its angle in hundredths of a degree, below 36000, and its speed in mm/s, below 100000.
    Wind(Gust),
    /// Whether a thruster group is ready; if not, it is lost.
    Group(bool),
}

/// Why a sound line gives no reading.
#[derive(Clone, Copy, Debug, PartialEq, Eq)]
pub enum Skip {
    /// The formatter, or the plain form, is not one that this kind of wire is read for.
    OtherFormatter,
    /// The sender says itself that its data are not valid.
    NotValid,
    /// A field, counted from 1, is missing, is not of its form, or has a value outside its range; or more fields stand there than a plain
    /// form has, and this is the first that is too many.
    BadField { index: usize },
}
