//! Why a run is refused, and the line that says so.
ghost use Rattle.std.specs.Prelude.{◌≡◌};
ghost use Rattle.dp_app.specs.FaultLines.{fault_line, fault_status};
ghost use Rattle.dp_app.specs.Troubles.{plant_fault, script_fault};

use crate::Status;
use crate::lines::{
    file_line, fixed_line, kind_word, line_kind_word, long_cycles_line, named_line,
};
use crate::script_file::ScriptTrouble;
use arrayvec::ArrayVec;
use dp_accept::{GainsRefusal, LINE, PlantRefusal, PlantTrouble, gains_line, plant_line};
use dp_frame::LineFault;
use dp_script::ScriptKind;

/// A file that a command reads.
#[derive(Clone, Copy, Debug, PartialEq, Eq)]
pub enum File {
    Plant,
    Script,
    Record,
    /// The first of two records, and the second.
    First,
    Second,
    /// The setpoint's moves.
    Moves,
}

/// Why a run is refused.
#[derive(Debug, Drop)]
pub enum Fault {
    /// The words are no command.
    Usage,
    /// A file can't be read.
    Read {
        file: File,
    },
    /// A file is longer than its limit.
    Long {
        file: File,
    },
    /// The plant file is refused.
    BadPlant {
        why: PlantRefusal,
    },
    /// The plant's gains are refused.
    GainsRefused {
        why: GainsRefusal,
    },
    /// The first faulty line of the script.
    BadScript {
        line: u64,
        kind: ScriptKind,
    },
    /// The first faulty line of a record.
    BadRecord {
        file: File,
        line: u64,
        kind: LineFault,
    },
    /// A line of a record, in which no earlier line is faulty, is of a cycle of 2^20 or more.
    LongCycles {
        cycle: u64,
    },
    /// Memory was wanted.
    Memory,
}

impl Fault {
    /// What trouble with a plant file is told as.
    pub fn of_plant(why: PlantTrouble) -> Fault
        ensures { result ≡ plant_fault why }
    {
        match why {
            PlantTrouble::Read => Fault::Read { file: File::Plant },
            PlantTrouble::Memory => Fault::Memory,
            PlantTrouble::Long => Fault::Long { file: File::Plant },
            PlantTrouble::Plant { why } => Fault::BadPlant { why },
            PlantTrouble::Gains { why } => Fault::GainsRefused { why },
        }
    }

    /// What trouble with a script is told as.
    pub fn of_script(why: ScriptTrouble) -> Fault
        ensures { result ≡ script_fault why }
    {
        match why {
            ScriptTrouble::Read => Fault::Read { file: File::Script },
            ScriptTrouble::Memory => Fault::Memory,
            ScriptTrouble::Long => Fault::Long { file: File::Script },
            ScriptTrouble::Line { line, kind } => Fault::BadScript { line, kind },
        }
    }

    /// Its line.
    #[tactic(auto, unfolding(crate::specs::FaultLines::fault_line))]
    pub fn line(&self) -> ArrayVec<u8, LINE>
        ensures { result.items ≡ fault_line self.now }
    {
        match self {
            Fault::Usage => fixed_line(b"fault usage\n"),
            Fault::Read { file } => file_line(b"read", *file),
            Fault::Long { file } => file_line(b"long", *file),
            Fault::BadPlant { why } => plant_line(why),
            Fault::GainsRefused { why } => gains_line(why),
            Fault::BadScript { line, kind } => named_line(File::Script, *line, kind_word(*kind)),
            Fault::BadRecord { file, line, kind } => {
                named_line(*file, *line, &line_kind_word(*kind))
            }
            Fault::LongCycles { cycle } => long_cycles_line(*cycle),
            Fault::Memory => fixed_line(b"fault memory\n"),
        }
    }

    /// The status that it announces.
    pub fn status(&self) -> Status
        ensures { result ≡ fault_status self.now }
    {
        match self {
            Fault::Usage => Status::Usage,
            Fault::Read { .. } => Status::ReadFault,
            Fault::Long { .. } | Fault::LongCycles { .. } => Status::TooLong,
            Fault::BadPlant { .. } => Status::BadPlant,
            Fault::GainsRefused { .. } => Status::GainsRefused,
            Fault::BadScript { .. } => Status::BadScript,
            Fault::BadRecord { .. } => Status::BadRecord,
            Fault::Memory => Status::Memory,
        }
    }
}
