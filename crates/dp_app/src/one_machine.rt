//! One machine alone over a record, at the plant's own setpoint: no voter, no script, and nothing is written.
ghost use Rattle.std.specs.Prelude.{◌≡◌, [], IfErr, IfOk, List, OnErr, Option};
ghost use Rattle.dp_frame.specs.{settings_of};
ghost use Rattle.dp_machine.specs.{IsAcceptedPlant, IsStateWithin, first_machine};
ghost use Rattle.dp_shell.specs.{Files, ReadsOnly, Rose};
ghost use Rattle.dp_stream.specs.{HasGiven};
ghost use Rattle.dp_app.specs.{HasRecordFault, HasRun, IsStateAfter, RunsRecord};

use crate::fault::{Fault, File};
use crate::streaming::fault_at;
use dp_accept::AcceptedPlant;
use dp_machine::{Machine, State};
use dp_plant::Plant;
use dp_shell::{Failed, Shelf};
use dp_stream::{End, Next, RecordReader};
use dp_trig::Trig;
use std::alloc::Global;

/// The state of one machine after a whole record; or the fault of the record, of a read, or of memory.
///
/// The record is read to its end, or to the first line that can't be taken. Memory is taken before it is read, and not later.
pub fn state_after<F: Shelf>(
    alloc: Global,
    plant: &AcceptedPlant,
    shelf: &mut F,
    name: &str,
) -> Result<State, Fault>
    requires { IsAcceptedPlant plant.now.plant plant.now.accepted }
    ensures ok { IfOk result (IsStateAfter (F.files shelf.old) name.now plant.now.plant) }
    ensures within { IfOk result (IsStateWithin plant.now.plant) }
    ensures err { IfErr result (HasRecordFault (F.files shelf.old) (F.faults shelf.old name.now)
        (F.faults shelf.new name.now) name.now plant.now.plant) }
    ensures reads { ReadsOnly F.files F.apart F.faults name.now shelf.old shelf.new }
{
    let Ok(mut machine) = Machine::new(alloc, &plant.plant, &plant.accepted) else {
        return Err(Fault::Memory);
    };
    match run_record(&mut machine, &plant.plant, shelf, name) {
        Ok(end) => match fault_at(File::Record, end) {
            Some(fault) => Err(fault),
            None => Ok(machine.state()),
        },
        Err(_) => Err(Fault::Read { file: File::Record }),
    }
}

/// Steps a new machine of this plant over the record of this name, and says how the record ends.
///
/// One frame of it is kept, and no memory is taken.
fn run_record<F: Shelf>(
    machine: &mut Machine,
    plant: &Plant,
    shelf: &mut F,
    name: &str,
) -> Result<End, Failed>
    requires { machine.old ≡ first_machine plant.now }
    ensures runs { RunsRecord (F.files shelf.old) name.now plant.now machine.new result }
    ensures failed { OnErr result (Rose (F.faults shelf.old name.now)
        (F.faults shelf.new name.now)) }
    ensures reads { ReadsOnly F.files F.apart F.faults name.now shelf.old shelf.new }
{
    let mut reader = RecordReader::new(name, plant, &Trig::new());
    run_frames(machine, plant, shelf, &mut reader)
}

/// Steps it over the frames of a record of which none was read yet.
fn run_frames<F: Shelf>(
    machine: &mut Machine,
    plant: &Plant,
    shelf: &mut F,
    reader: &mut RecordReader,
) -> Result<End, Failed>
    requires run { HasRun plant.now machine.old [] }
    requires given { (files : Option Files) → HasGiven files reader.old [] }
    requires settings { reader.old.lines.progress.settings ≡ settings_of plant.now }
    ensures runs { RunsRecord (F.files shelf.old) reader.old.name plant.now machine.new result }
    ensures failed { OnErr result (Rose (F.faults shelf.old reader.old.name)
        (F.faults shelf.new reader.old.name)) }
    ensures reads { ReadsOnly F.files F.apart F.faults reader.old.name shelf.old shelf.new }
{
    loop {
        match reader.next(shelf) {
            Ok(Next::Frame) => {
                let _issue = machine.step(reader.frame());
            }
            Ok(Next::Over { end }) => return Ok(end),
            Err(failed) => return Err(failed),
        }
    }
}
