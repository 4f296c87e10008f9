use crate::act::Act;

/// An act and its cycle.
#[derive(Drop)]
pub struct TimedAct {
    pub cycle: u64,
    pub act: Act,
}
