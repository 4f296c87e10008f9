//! What the control law demands of the three axes.
ghost use Rattle.std.specs.Prelude.{◌≡◌, ◌≤◌, ◌<◌, ◌^◌, [], ◌∷◌, unsigned_abs};
ghost use Rattle.dp_plant.specs.{IsInBox, IsLawGains, IsPair, IsPlaneBox, IsPlaneSetpoint, IsPlaneWithin, IsYawBox, IsYawGains, IsYawSetpoint, IsYawWithin};
ghost use Rattle.dp_pid.specs.Asked.{AreDemands, demands_of, limited_of};
ghost use Rattle.dp_pid.specs.Axis.{IsAlongWithin, IsPlaneAnswer, IsTurnWithin, IsYawAnswer, asked_of_plane, asked_of_yaw};
ghost use Rattle.dp_pid.specs.Body.{plane_axis, yaw_axis};
ghost use Rattle.dp_pid.specs.WindPush.{IsWindPush};

use crate::axis::{Along, Answer, Axis};
use crate::body::{in_body, in_yaw};
use dp_plant::{Box3, Gains, PlaneState, Setpoint, YawGains, YawState};

/// What is demanded of surge, sway and yaw, and for each whether the clamp to its box changed what was asked.
#[derive(Clone, Copy, Debug, PartialEq, Eq)]
pub struct Asked {
    pub a: [i64; 3],
    pub limited: [bool; 3],
}

/// What is demanded by the state before the cycle's update: `pair` is the sine pair of the heading, and `wind` what the wind pushes on
/// surge, sway and yaw.
pub fn issue(
    g: &Gains,
    y: &YawGains,
    b: &Box3,
    plane: &PlaneState,
    yaw: &YawState,
    setpoint: &Setpoint,
    pair: (i64, i64),
    wind: [i64; 3],
) -> Asked
    requires gains { IsLawGains g.now }
    requires yaw_gains { IsYawGains y.now }
    requires limits { IsPlaneBox b.now }
    requires yaw_limits { IsYawBox b.now }
    requires plane { IsPlaneWithin plane.now }
    requires yaw { IsYawWithin yaw.now }
    requires place { IsPlaneSetpoint setpoint.now }
    requires heading { IsYawSetpoint setpoint.now }
    requires pair { IsPair pair }
    requires wind { IsWindPush wind }
    ensures a { result.a ≡ demands_of g.now y.now b.now plane.now yaw.now setpoint.now pair wind }
    ensures limited { result.limited
        ≡ limited_of g.now y.now b.now plane.now yaw.now setpoint.now pair wind }
    ensures in_box { IsInBox b.now result.a }
    ensures within { AreDemands result.a }
{
    let body = in_body(setpoint, pair, plane);
    let turn = in_yaw(setpoint, yaw);
    let surge = plane_answer(g, b, 0, body.surge, wind[0]);
    let sway = plane_answer(g, b, 1, body.sway, wind[1]);
    let turning = yaw_answer(y, b, turn, wind[2]);
    together(surge, sway, turning)
}

/// The answer of surge, axis 0, or sway, axis 1.
fn plane_answer(g: &Gains, b: &Box3, j: usize, along: Along, wind: i64) -> Answer
    requires gains { IsLawGains g.now }
    requires limits { IsPlaneBox b.now }
    requires axis { j < 2 }
    requires along { IsAlongWithin along }
    requires wind { unsigned_abs wind ≤ 2 ^ 31 }
    ensures { let axis = plane_axis g.now b.now j in
        IsPlaneAnswer axis (asked_of_plane axis along wind) result }
{
    let axis = plane_axis(g, b, j);
    axis.on_plane(along, wind)
}

/// The gains and the range of surge, axis 0, or sway, axis 1.
fn plane_axis(g: &Gains, b: &Box3, j: usize) -> Axis
    requires { j < 2 }
    ensures { result ≡ plane_axis g.now b.now j }
{
    Axis {
        kp: g.kp[j],
        kd: g.kd[j],
        bias: g.bias[j],
        lo: b.lo[j],
        hi: b.hi[j],
    }
}

/// The answer of yaw.
fn yaw_answer(y: &YawGains, b: &Box3, along: Along, wind: i64) -> Answer
    requires gains { IsYawGains y.now }
    requires limits { IsYawBox b.now }
    requires along { IsTurnWithin along }
    requires wind { unsigned_abs wind ≤ 2 ^ 31 }
    ensures { let axis = yaw_axis y.now b.now in
        IsYawAnswer axis (asked_of_yaw axis along wind) result }
{
    let axis = yaw_axis(y, b);
    axis.in_yaw(along, wind)
}

fn yaw_axis(y: &YawGains, b: &Box3) -> Axis
    ensures { result ≡ yaw_axis y.now b.now }
{
    Axis {
        kp: y.kp,
        kd: y.kd,
        bias: y.bias,
        lo: b.lo[2],
        hi: b.hi[2],
    }
}

fn together(surge: Answer, sway: Answer, yaw: Answer) -> Asked
    ensures a { result.a ≡ surge.demand ∷ sway.demand ∷ yaw.demand ∷ [] }
    ensures limited { result.limited ≡ surge.limited ∷ sway.limited ∷ yaw.limited ∷ [] }
{
    Asked {
        a: [surge.demand, sway.demand, yaw.demand],
        limited: [surge.limited, sway.limited, yaw.limited],
    }
}
