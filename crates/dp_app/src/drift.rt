//! The drifts that the loss of each further group would bring about, by the mean demand at the end of a record.
ghost use Rattle.std.specs.Prelude.{Some};
ghost use Rattle.dp_app.specs.Words.{drift};
ghost use Rattle.dp_app.specs.{Runs};

use crate::Status;
use crate::drift_table::table_of;
use crate::ending::{announce, write_last};
use crate::fault::Fault;
use crate::one_machine::state_after;
use dp_accept::accept_plant;
use dp_shell::{Shelf, Sink};
use std::alloc::Global;

/// Reads and judges a plant, runs one machine over a record, and writes for each group that isn't lost then how far its loss would let
/// the vessel drift: open-loop arithmetic on the mean demand of the last 60 cycles.
///
/// The limit is in millimetres, at most 1000 km. Nothing is written before all of the record was read.
pub fn drift<F: Shelf, K: Sink>(
    alloc: Global,
    plant_name: &str,
    record_name: &str,
    limit: u32,
    cycles: u32,
    shelf: &mut F,
    out: &mut K,
) -> Status
    ensures { Runs F.files F.apart F.faults K.taken K.faults
        (Some (drift plant_name.now record_name.now limit cycles))
        shelf.old shelf.new out.old out.new result }
{
    match accept_plant(alloc, shelf, plant_name) {
        Ok(plant) => match state_after(alloc, &plant, shelf, record_name) {
            Ok(state) => write_last(out, &table_of(&plant.plant, &state, limit, cycles)),
            Err(fault) => announce(out, fault),
        },
        Err(why) => announce(out, Fault::of_plant(why)),
    }
}
