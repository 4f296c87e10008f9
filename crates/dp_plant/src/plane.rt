ghost use Rattle.std.specs.Prelude.{◌≡◌};
ghost use Rattle.dp_plant.specs.declared.plane.Component.{Component};
ghost use Rattle.dp_plant.specs.Observer.{east_of, north_of, plane_of, rest_at};

use crate::Place;

/// The observer's estimate of the plane, in north and east: place `eta` without the motion that waves cause, bias `beta` (the slow
/// forces), velocity `vel`, and the wave states, of which `wave_q` is the motion by waves in the measured place and `wave_p` its
/// companion in the filter.
#[derive(Clone, Copy, Debug, PartialEq, Eq)]
pub struct PlaneState {
    pub eta: Place,
    pub beta: Place,
    pub vel: Place,
    pub wave_p: Place,
    pub wave_q: Place,
}

/// The north or the east component of a plane's state.
#[derive(Clone, Copy, Debug, PartialEq, Eq)]
pub struct Component {
    pub eta: i64,
    pub beta: i64,
    pub vel: i64,
    pub wave_p: i64,
    pub wave_q: i64,
}

impl PlaneState {
    /// At rest at a place: no bias, no velocity and no waves.
    pub fn rest(at: Place) -> PlaneState
        ensures { result ≡ rest_at at }
    {
        let zero = Place { north: 0, east: 0 };
        PlaneState {
            eta: at,
            beta: zero,
            vel: zero,
            wave_p: zero,
            wave_q: zero,
        }
    }

    /// The state of two components.
    pub fn of(north: Component, east: Component) -> PlaneState
        ensures { result ≡ plane_of north east }
    {
        PlaneState {
            eta: Place {
                north: north.eta,
                east: east.eta,
            },
            beta: Place {
                north: north.beta,
                east: east.beta,
            },
            vel: Place {
                north: north.vel,
                east: east.vel,
            },
            wave_p: Place {
                north: north.wave_p,
                east: east.wave_p,
            },
            wave_q: Place {
                north: north.wave_q,
                east: east.wave_q,
            },
        }
    }

    /// The component in north.
    pub fn north(&self) -> Component
        ensures { result ≡ north_of self.now }
    {
        Component {
            eta: self.eta.north,
            beta: self.beta.north,
            vel: self.vel.north,
            wave_p: self.wave_p.north,
            wave_q: self.wave_q.north,
        }
    }

    /// The component in east.
    pub fn east(&self) -> Component
        ensures { result ≡ east_of self.now }
    {
        Component {
            eta: self.eta.east,
            beta: self.beta.east,
            vel: self.vel.east,
            wave_p: self.wave_p.east,
            wave_q: self.wave_q.east,
        }
    }
}
