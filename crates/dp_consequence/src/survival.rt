//! Whether the loss of one more group is survived.
ghost use Rattle.std.specs.Prelude.{◌≡◌, ◌≤◌, ◌<◌, ◌+◌, ◌^◌, false, if◌then◌else◌};
ghost use Rattle.dp_plant.specs.{case_of, is_lost};
ghost use Rattle.dp_consequence.specs.{is_in_box, is_in_plane, is_in_range};
ghost use Rattle.dp_consequence.specs.Survival as survival;

use dp_plant::{Box3, Plant};

/// The number whose one bit is that of a group.
fn bit(group: u8) -> u8
    requires { group < 8 }
    ensures { result ≡ 2 ^ group }
{
    1 << group
}

/// The bit of a group, or 0.
pub(crate) fn bit_if(is_set: bool, group: u8) -> u8
    requires { group < 8 }
    ensures { result ≡ (if is_set then 2 ^ group else 0) }
{
    if is_set { bit(group) } else { 0 }
}

/// The group is among those of the mask.
fn is_lost(lost: u8, group: u8) -> bool
    requires { group < 8 }
    ensures { result ≡ is_lost lost group }
{
    (lost >> group) % 2 == 1
}

fn is_in_range(low: i64, high: i64, demand: i64) -> bool
    ensures { result ≡ is_in_range low high demand }
{
    low <= demand && demand <= high
}

fn is_in_plane(bounds: &Box3, demand: &[i64; 3]) -> bool
    ensures { result ≡ is_in_plane bounds.now demand.now }
{
    is_in_range(bounds.lo[0], bounds.hi[0], demand[0])
        && is_in_range(bounds.lo[1], bounds.hi[1], demand[1])
}

fn is_in_box(bounds: &Box3, demand: &[i64; 3]) -> bool
    ensures { result ≡ is_in_box bounds.now demand.now }
{
    is_in_plane(bounds, demand) && is_in_range(bounds.lo[2], bounds.hi[2], demand[2])
}

/// The plant has a case of just these lost groups, and its box holds the demand.
fn is_met(plant: &Plant, lost: u8, demand: &[i64; 3]) -> bool
    ensures { result ≡ survival.is_met (case_of plant.now lost) demand.now }
{
    match plant.case_of(lost) {
        Some(case) => is_in_box(&case.bounds, demand),
        None => false,
    }
}

/// The mask with a group added that isn't in it.
fn with_group(lost: u8, group: u8) -> u8
    requires group { group < 8 }
    requires ready { is_lost lost group ≡ false }
    ensures { result ≡ lost + 2 ^ group }
{
    lost + bit(group)
}

/// The group is ready, and its loss would not be survived.
pub(crate) fn is_unsurvived(plant: &Plant, lost: u8, group: u8, mean: [i64; 3]) -> bool
    requires { group < 8 }
    ensures { result ≡ survival.is_unsurvived plant.now lost mean group }
{
    !is_lost(lost, group) && !is_met(plant, with_group(lost, group), &mean)
}
