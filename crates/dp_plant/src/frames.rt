use crate::Place;

/// The wires on which sensors and groups of thrusters report: three position references, three gyros, three wind sensors, and up to
/// eight groups; the number is that of the reference, gyro or wind sensor, 0 to 2, or of the group, 0 to 7.
#[derive(Clone, Copy, Debug, PartialEq, Eq)]
pub enum Wire {
    Pos(u8),
    Gyro(u8),
    Wind(u8),
    Group(u8),
}

/// Wind as the vessel feels it: the angle from the bow in hundredths of a degree, 0 to 35999, and the speed in mm/s, below 100000.
#[derive(Clone, Copy, Debug, PartialEq, Eq)]
pub struct Gust {
    pub angle: u32,
    pub speed: u32,
}

/// What one wire brought in a cycle: its last reading, if there is one, and the numbers of its damaged lines, and of its lines that
/// are sound and give no reading.
#[derive(Clone, Copy, Debug, PartialEq, Eq)]
pub struct Slot<T> {
    pub last: Option<T>,
    pub damage: u64,
    pub skipped: u64,
}

/// What all wires brought in one cycle: places within ±2^43 nm, headings in hundredths of a degree, 0 to 35999, wind, and whether a
/// group of thrusters is ready. The cycle is below 2^20.
#[derive(Clone, Copy, Debug, PartialEq, Eq)]
pub struct Frame {
    pub cycle: u64,
    pub pos: [Slot<Place>; 3],
    pub gyro: [Slot<u32>; 3],
    pub wind: [Slot<Gust>; 3],
    pub group: [Slot<bool>; 8],
}
