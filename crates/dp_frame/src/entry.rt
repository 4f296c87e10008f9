ghost use Rattle.std.specs.Prelude.{◌≡◌};
ghost use Rattle.dp_frame.specs.Slots.{gust_of, heading_of, place_of, ready_of};

use crate::LineFault;
use dp_plant::{Gust, Place, Wire};

/// What a line brings for its wire: a reading, damage, or nothing, where it is skipped.
#[derive(Clone, Copy)]
pub enum Content {
    At(Place),
    Heading(u32),
    Wind(Gust),
    Ready(bool),
    Damaged,
    Skipped,
}

/// What a line brings for a wire with readings of one type.
#[derive(Clone, Copy)]
pub enum Brought<T> {
    Reading(T),
    Damaged,
    Skipped,
}

/// What a good line says that isn't empty.
#[derive(Clone, Copy)]
pub struct Entry {
    /// In milliseconds.
    pub time: u64,
    pub cycle: u64,
    pub wire: Wire,
    pub content: Content,
}

/// The judgement on one line.
#[derive(Clone, Copy)]
pub enum Judged {
    Blank,
    Good(Entry),
    Faulty(LineFault),
    /// Sound, and of a cycle of 2^20 or more.
    TooMany { cycle: u64 },
}

impl Content {
    pub(crate) fn place(self) -> Brought<Place>
        ensures { result ≡ place_of self }
    {
        match self {
            Content::At(place) => Brought::Reading(place),
            Content::Damaged => Brought::Damaged,
            _ => Brought::Skipped,
        }
    }

    pub(crate) fn heading(self) -> Brought<u32>
        ensures { result ≡ heading_of self }
    {
        match self {
            Content::Heading(heading) => Brought::Reading(heading),
            Content::Damaged => Brought::Damaged,
            _ => Brought::Skipped,
        }
    }

    pub(crate) fn gust(self) -> Brought<Gust>
        ensures { result ≡ gust_of self }
    {
        match self {
            Content::Wind(gust) => Brought::Reading(gust),
            Content::Damaged => Brought::Damaged,
            _ => Brought::Skipped,
        }
    }

    pub(crate) fn ready(self) -> Brought<bool>
        ensures { result ≡ ready_of self }
    {
        match self {
            Content::Ready(ready) => Brought::Reading(ready),
            Content::Damaged => Brought::Damaged,
            _ => Brought::Skipped,
        }
    }
}
