//! The table of drifts of a state: by its mask, and by the mean of its demands.
ghost use Rattle.std.specs.Prelude.{◌≡◌, ◌≤◌, ◌<◌, ◌^◌, ◌*◌, ◌+◌, ◌++◌, ◌∷◌, [], All, false, length, map, pos, ◌+ℤ◌, ◌≤ℤ◌, unsigned_abs};
ghost use Rattle.arrayvec.specs.ArrayVec.{array_vec_len};
ghost use Rattle.dp_alloc.specs.{IsDemandWithin};
ghost use Rattle.dp_consequence.specs.Demands.{mean_demand, mean_on, sum_of};
ghost use Rattle.dp_fixed.specs.{full_scale};
ghost use Rattle.dp_plant.specs.{entry, is_lost};
ghost use Rattle.dp_machine.specs.{IsStateWithin};
ghost use Rattle.dp_drift.specs.{drift_line, drift_table, drift_without, end_line};
ghost use Rattle.dp_app.specs.{drift_text_of, mean_of_late};

use arrayvec::ArrayVec;
use dp_drift::{Drift, append_end, append_group, drift_without, is_ready};
use dp_machine::State;
use dp_plant::Plant;
use dp_text::append;

/// Room for a line.
const LINE: usize = 192;

/// Room for a table: eight groups' lines and the last one.
const TABLE: usize = 2048;

/// Nanometres in a millimetre.
const MILLIMETRE: i64 = 1_000_000;

/// The table of a state's drifts in so many cycles, for a limit in millimetres.
#[tactic(auto, unfolding(crate::specs::Drifts::drift_text_of))]
pub fn table_of(plant: &Plant, state: &State, limit: u32, cycles: u32) -> ArrayVec<u8, TABLE>
    requires state { IsStateWithin plant.now state.now }
    requires damp_low { pos 0 ≤ℤ plant.now.gains.damp }
    requires damp_high { plant.now.gains.damp ≤ℤ full_scale }
    ensures { result.items ≡ drift_text_of plant.now state.now limit cycles }
{
    let mean = mean_of_late(state.demands.as_slice());
    table_by(plant, state.lost, mean, limit, cycles)
}

/// The table by a mask and a mean demand, for a limit in millimetres.
#[tactic(auto, unfolding(dp_drift::specs::Lines::drift_table))]
fn table_by(plant: &Plant, lost: u8, mean: [i64; 3], limit: u32, cycles: u32) -> ArrayVec<u8, TABLE>
    requires damp_low { pos 0 ≤ℤ plant.now.gains.damp }
    requires damp_high { plant.now.gains.damp ≤ℤ full_scale }
    requires surge { unsigned_abs (entry mean 0) ≤ 2 ^ 31 }
    requires sway { unsigned_abs (entry mean 1) ≤ 2 ^ 31 }
    ensures { result.items
        ≡ drift_table plant.now lost mean (pos (limit * 10 ^ 6)) cycles }
{
    let mut text = ArrayVec::new();
    let mut count = 0;
    for group in 0..plant.groups {
        if is_ready(lost, group) {
            let drift = drift_for(plant, lost, group, mean, limit, cycles);
            append_line(&mut text, group, drift);
            count += 1;
        }
    }
    append_last(&mut text, count);
    text
}

/// The drift with a ready group lost too, for a limit in millimetres.
fn drift_for(
    plant: &Plant,
    lost: u8,
    group: u8,
    mean: [i64; 3],
    limit: u32,
    cycles: u32,
) -> Option<Drift>
    requires group { group < 8 }
    requires ready { is_lost lost group ≡ false }
    requires damp_low { pos 0 ≤ℤ plant.now.gains.damp }
    requires damp_high { plant.now.gains.damp ≤ℤ full_scale }
    requires surge { unsigned_abs (entry mean 0) ≤ 2 ^ 31 }
    requires sway { unsigned_abs (entry mean 1) ≤ 2 ^ 31 }
    ensures { result ≡ drift_without plant.now lost group mean (pos (limit * 10 ^ 6)) cycles }
{
    drift_without(plant, lost, group, mean, nanometres(limit), cycles)
}

fn nanometres(limit: u32) -> i64
    ensures value { result ≡ pos (limit * 10 ^ 6) }
    ensures low { pos 0 ≤ℤ result }
{
    i64::from(limit) * MILLIMETRE
}

/// Appends the line of a group.
fn append_line(text: &mut ArrayVec<u8, TABLE>, group: u8, drift: Option<Drift>)
    requires { array_vec_len text.old + 136 ≤ TABLE }
    ensures text { text.new.items ≡ text.old.items ++ drift_line group drift }
    ensures len { array_vec_len text.new ≤ array_vec_len text.old + 136 }
{
    let mut line: ArrayVec<u8, LINE> = ArrayVec::new();
    append_group(&mut line, group, drift);
    append(text, &line);
}

/// Appends the last line.
fn append_last(text: &mut ArrayVec<u8, TABLE>, count: u64)
    requires { array_vec_len text.old + 25 ≤ TABLE }
    ensures { text.new.items ≡ text.old.items ++ end_line count }
{
    let mut line: ArrayVec<u8, LINE> = ArrayVec::new();
    append_end(&mut line, count);
    append(text, &line);
}

/// The mean of the demands of late, rounded down; zeros where there was none.
fn mean_of_late(demands: &[[i64; 3]]) -> [i64; 3]
    requires few { length demands.now ≤ 60 }
    requires within { All IsDemandWithin demands.now }
    ensures value { result ≡ mean_of_late demands.now }
    ensures surge { unsigned_abs (entry result 0) ≤ 2 ^ 31 }
    ensures sway { unsigned_abs (entry result 1) ≤ 2 ^ 31 }
{
    if demands.is_empty() {
        [0, 0, 0]
    } else {
        mean_of(demands)
    }
}

/// The mean of some demands, rounded down.
#[tactic(auto, unfolding(dp_consequence::specs::Demands::mean_demand))]
fn mean_of(demands: &[[i64; 3]]) -> [i64; 3]
    requires some { 0 < length demands.now }
    requires few { length demands.now ≤ 60 }
    requires within { All IsDemandWithin demands.now }
    ensures value { result ≡ mean_demand demands.now }
    ensures surge { unsigned_abs (entry result 0) ≤ 2 ^ 31 }
    ensures sway { unsigned_abs (entry result 1) ≤ 2 ^ 31 }
{
    let surge = mean_on(demands, 0);
    let sway = mean_on(demands, 1);
    [surge, sway, mean_on(demands, 2)]
}

/// The mean of some demands on an axis, rounded down.
fn mean_on(demands: &[[i64; 3]], axis: usize) -> i64
    requires some { 0 < length demands.now }
    requires few { length demands.now ≤ 60 }
    requires within { All IsDemandWithin demands.now }
    requires axis { axis < 3 }
    ensures { result ≡ mean_on demands.now axis }
{
    sum_on(demands, axis).div_euclid(demands.len() as i64)
}

/// The sum of some demands on an axis.
fn sum_on(demands: &[[i64; 3]], axis: usize) -> i64
    requires few { length demands.now ≤ 60 }
    requires within { All IsDemandWithin demands.now }
    requires axis { axis < 3 }
    ensures value { result ≡ sum_of (map (λ d. entry d axis) demands.now) }
    ensures bound { unsigned_abs result ≤ 2 ^ 44 }
{
    let mut total = 0;
    for i in 0..demands.len() {
        total = plus(total, on_axis(&demands[i], axis));
    }
    total
}

fn plus(total: i64, more: i64) -> i64
    requires total { unsigned_abs total ≤ 2 ^ 44 }
    requires more { unsigned_abs more ≤ 2 ^ 38 }
    ensures { result ≡ total +ℤ more }
{
    total + more
}

fn on_axis(demand: &[i64; 3], axis: usize) -> i64
    requires within { IsDemandWithin demand.now }
    requires axis { axis < 3 }
    ensures value { result ≡ entry demand.now axis }
    ensures bound { unsigned_abs result ≤ 2 ^ 38 }
{
    demand[axis]
}
