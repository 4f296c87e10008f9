use arrayvec::ArrayVec;
use dp_plant::Alarms;

/// What a computer issues in a cycle: a force for each thruster in newtons, the demand on surge, sway and yaw that they are to meet,
/// and what it warns of.
#[derive(Debug, Drop)]
pub struct Issue {
    pub cycle: u64,
    pub forces: ArrayVec<i64, 12>,
    pub demand: [i64; 3],
    pub alarms: Alarms,
}

impl Issue {
    ghost use Rattle.std.specs.Prelude.{◌≡◌};

    /// An equal issue; it takes no memory.
    pub fn copy(&self) -> Issue
        ensures { result ≡ self.now }
    {
        let mut forces = ArrayVec::new();
        // a list fits its own capacity
        let _fits = forces.try_extend_from_slice(self.forces.as_slice());
        Issue {
            cycle: self.cycle,
            forces,
            demand: self.demand,
            alarms: self.alarms,
        }
    }
}
