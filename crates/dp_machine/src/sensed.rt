//! What a cycle hears of heading, wind and groups of thrusters.
ghost use Rattle.std.specs.Prelude.{◌≡◌, ◌<◌, IfSome, filter_map};
ghost use Rattle.std.specs.List.{AllByRecursion};
ghost use Rattle.dp_plant.specs.{IsFrameWithin, IsGustWithin, IsHeadingSlotWithin, IsWindSlotWithin};
ghost use Rattle.dp_fuse.specs.{fused_angle, fused_gust};
ghost use Rattle.dp_machine.specs.Step.{sensed_by};

use crate::estimates::Estimates;
use crate::groups::lost_next;
use dp_plant::{Frame, Gust, Slot};

/// The fused heading in hundredths of a degree, and the fused wind, where there is one; and the mask of the groups that are lost.
#[derive(Clone, Copy, Debug, PartialEq, Eq)]
pub struct Sensed {
    pub heading: Option<u32>,
    pub gust: Option<Gust>,
    pub lost: u8,
}

impl Sensed {
    /// What a frame brings, by the last fused heading, the last fused angle of the wind, and the groups that were lost before it.
    #[tactic(auto, unfolding(crate::specs::Step::sensed_by))]
    pub(crate) fn of(f: &Frame, now: &Estimates) -> Sensed
        requires frame { IsFrameWithin f.now }
        requires heading { now.now.heading < 36000 }
        requires wind { now.now.wind < 36000 }
        ensures value { result ≡ sensed_by now.now.heading now.now.wind now.now.lost f.now }
        ensures heading { IfSome result.heading (λ a. a < 36000) }
        ensures gust { IfSome result.gust IsGustWithin }
    {
        Sensed {
            heading: fused_heading(&f.gyro, now.heading),
            gust: fused_wind(&f.wind, now.wind),
            lost: lost_next(now.lost, &f.group),
        }
    }
}

fn fused_heading(gyro: &[Slot<u32>; 3], base: u32) -> Option<u32>
    requires slots { AllByRecursion IsHeadingSlotWithin gyro.now }
    requires base { base < 36000 }
    ensures value { result ≡ fused_angle base (filter_map (λ s. s.last) gyro.now) }
    ensures within { IfSome result (λ a. a < 36000) }
{
    let [a, b, c] = gyro;
    dp_fuse::heading([a.last, b.last, c.last], base)
}

fn fused_wind(wind: &[Slot<Gust>; 3], base: u32) -> Option<Gust>
    requires slots { AllByRecursion IsWindSlotWithin wind.now }
    requires base { base < 36000 }
    ensures value { result ≡ fused_gust base (filter_map (λ s. s.last) wind.now) }
    ensures within { IfSome result IsGustWithin }
{
    let [a, b, c] = wind;
    dp_fuse::wind([a.last, b.last, c.last], base)
}
