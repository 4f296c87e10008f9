//! The forces of a demand.
ghost use Rattle.std.specs.Prelude.{◌≡◌, ◌≤◌, ◌^◌, ◌*ℤ◌, [], All, map, pos, unsigned_abs};
ghost use Rattle.dp_fixed.specs.{floor_of};
ghost use Rattle.dp_plant.specs.{IsShareRow};
ghost use Rattle.dp_alloc.specs.{IsDemandWithin, thrust_of};

use arrayvec::ArrayVec;
use dp_fixed::{floor_div, narrow, sum};
use dp_plant::Thruster;

/// The scale of a case's shares.
const SHARES: i128 = 1 << 20;

/// The forces by the rows of a case, into an empty list.
pub(crate) fn add_thrusts(
    rows: &ArrayVec<[i64; 3], 12>,
    demand: [i64; 3],
    forces: &mut ArrayVec<i64, 12>,
)
    requires shares { All IsShareRow rows.now.items }
    requires demand { IsDemandWithin demand }
    requires empty { forces.old.items ≡ [] }
    ensures { forces.new.items ≡ map (thrust_of demand) rows.now.items }
{
    for row in rows.as_slice() {
        forces.push(thrust_of(row, demand));
    }
}

/// No force of any thruster, into an empty list.
pub(crate) fn add_no_thrusts(thrusters: &ArrayVec<Thruster, 12>, forces: &mut ArrayVec<i64, 12>)
    requires empty { forces.old.items ≡ [] }
    ensures { forces.new.items ≡ map (λ t. pos 0) thrusters.now.items }
{
    for _ in thrusters.as_slice() {
        forces.push(0);
    }
}

/// The force of a thruster, by its row of shares over 2^20.
fn thrust_of(row: &[i64; 3], demand: [i64; 3]) -> i64
    requires shares { IsShareRow row.now }
    requires demand { IsDemandWithin demand }
    ensures { result ≡ thrust_of demand row.now }
{
    let plane = sum(part(row[0], demand[0]), part(row[1], demand[1]));
    whole(sum(plane, part(row[2], demand[2])))
}

/// So many shares, in whole newtons.
pub(crate) fn whole(shares: i128) -> i64
    requires { unsigned_abs shares ≤ 2 ^ 71 }
    ensures { result ≡ floor_of shares (pos (2 ^ 20)) }
{
    narrow(floor_div(shares, SHARES))
}

/// A share of a demand, over 2^20.
pub(crate) fn part(share: i64, demand: i64) -> i128
    requires share { unsigned_abs share ≤ 2 ^ 31 }
    requires demand { unsigned_abs demand ≤ 2 ^ 38 }
    ensures value { result ≡ share *ℤ demand }
    ensures bound { unsigned_abs result ≤ 2 ^ 69 }
{
    share as i128 * demand as i128
}
