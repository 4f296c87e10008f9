//! What the wind pushes.
ghost use Rattle.std.specs.Prelude.{◌≡◌, ◌≤◌, ◌<◌, ◌^◌, ◌*ℤ◌, pos, neg_ℤ, Some, All, unsigned_abs};
ghost use Rattle.dp_fixed.specs.{clamp_of};
ghost use Rattle.dp_plant.specs.{AreWindShares};
ghost use Rattle.dp_pid.specs.{IsWindPush, pushed_by, row_push, wind_push};

use dp_fixed::{clamp, floor_div, narrow, product};
use dp_plant::WindTable;

/// No push is farther from zero.
const LIMIT: i128 = 1 << 31;

/// The scale of the table's shares.
const SHARES: i128 = 1 << 20;

/// What a wind pushes on surge, sway and yaw, by its angle from the bow in hundredths of a degree and its speed in mm/s: the row of the
/// table for the angle's 30 degrees, times the square of the speed, over 2^20 and rounded down, within ±2^31.
pub fn wind_push(t: &WindTable, angle: u32, speed: u32) -> [i64; 3]
    requires table { All AreWindShares t.now.push }
    requires angle { angle < 36000 }
    requires speed { speed < 100000 }
    ensures value { result ≡ wind_push t.now (Some (record { angle = angle; speed = speed })) }
    ensures within { IsWindPush result }
{
    row_push(&t.push[angle as usize / 3000], speed)
}

fn row_push(row: &[i64; 3], speed: u32) -> [i64; 3]
    requires shares { AreWindShares row.now }
    requires speed { speed < 100000 }
    ensures value { result ≡ row_push row.now (pos speed) }
    ensures within { IsWindPush result }
{
    [
        pushed_by(row[0], speed),
        pushed_by(row[1], speed),
        pushed_by(row[2], speed),
    ]
}

/// What a share of the table pushes at a speed.
fn pushed_by(share: i64, speed: u32) -> i64
    requires share { unsigned_abs share ≤ 2 ^ 24 }
    requires speed { speed < 100000 }
    ensures value { result ≡ pushed_by share (pos speed) }
    ensures bound { unsigned_abs result ≤ 2 ^ 31 }
{
    let whole = product(share, squared(speed));
    capped(floor_div(whole, SHARES))
}

fn squared(speed: u32) -> i128
    requires { speed < 100000 }
    ensures value { result ≡ pos speed *ℤ pos speed }
    ensures bound { unsigned_abs result ≤ 2 ^ 34 }
{
    speed as i128 * speed as i128
}

/// A push within the limit.
fn capped(push: i128) -> i64
    ensures value { result ≡ clamp_of push (neg_ℤ (pos (2 ^ 31))) (pos (2 ^ 31)) }
    ensures bound { unsigned_abs result ≤ 2 ^ 31 }
{
    narrow(clamp(push, -LIMIT, LIMIT))
}
