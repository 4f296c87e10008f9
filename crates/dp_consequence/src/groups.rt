//! The groups that the vessel can't afford to lose, as a list and as bits.
ghost use Rattle.std.specs.Prelude.{◌≡◌};
ghost use Rattle.dp_consequence.specs.{unsurvived_bits, unsurvived_groups};

use crate::survival::{bit_if, is_unsurvived};
use arrayvec::ArrayVec;
use dp_plant::Plant;

/// The ready groups whose loss would not be survived, in rising order.
///
/// `lost` is the mask of the groups that are lost already, and `mean` the mean demand of late on surge, sway and yaw, in nanometres and
/// nanodegrees per cycle squared. A group is named where the plant has no case for the mask with that group added, or that case's box
/// doesn't hold the mean.
#[tactic(auto, unfolding(crate::specs::Survival::unsurvived_groups))]
pub fn check(plant: &Plant, lost: u8, mean: [i64; 3]) -> ArrayVec<u8, 8>
    ensures { result.items ≡ unsurvived_groups plant.now lost mean }
{
    let mut groups = ArrayVec::new();
    for group in 0..plant.groups {
        if is_unsurvived(plant, lost, group, mean) {
            groups.push(group);
        }
    }
    groups
}

/// The groups that [`check`] lists, as a number: bit g is set for group g.
#[tactic(auto, unfolding(crate::specs::Survival::unsurvived_bits))]
pub fn check_bits(plant: &Plant, lost: u8, mean: [i64; 3]) -> u8
    ensures { result ≡ unsurvived_bits plant.now lost mean }
{
    let mut bits = 0;
    for group in 0..plant.groups {
        bits += bit_if(is_unsurvived(plant, lost, group, mean), group);
    }
    bits
}
