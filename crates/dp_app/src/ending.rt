//! How a run ends: its last line, and the status that goes with it.
ghost use Rattle.std.specs.Prelude.{◌≡◌, ◌≢◌, ◌⊎◌, ◌≤◌, ◌++◌, [], ℕ, List, Option};
ghost use Rattle.std.specs.Io.KnownBytes.{Appends};
ghost use Rattle.dp_shell.specs.{AppendsCut, Rose};
ghost use Rattle.dp_app.specs.{HasWritten, IsAnnounced, IsOfInputs, IsOfRecord, LineEnds, NoReadFailed, end_line, fault_line, fault_status, last_line, last_status};

use crate::Status;
use crate::fault::Fault;
use arrayvec::ArrayVec;
use dp_accept::LINE;
use dp_shell::{Sink, Trouble, write_all};
use dp_text::{append, append_decimal};

/// Writes the last line, the number of cycles or the record's fault, and answers the status.
pub fn finish<K: Sink>(out: &mut K, fault: Option<Fault>, count: u64) -> Status
    requires { IsOfRecord fault }
    ensures status { IsOfInputs result → result ≡ last_status fault }
    ensures written { (start : Option (List ℕ)) (text : List ℕ)
        → Appends start (K.taken out.old) text
        → HasWritten NoReadFailed [] (text ++ last_line count fault) result start
        (K.taken out.new) }
    ensures announced { (start : Option (List ℕ)) (text : List ℕ)
        → Appends start (K.taken out.old) text
        → IsAnnounced result start (K.taken out.new) }
    ensures write { result ≡ Status.WriteFault → Rose (K.faults out.old) (K.faults out.new) }
    ensures read { (result ≢ Status.ReadFault) × (result ≢ Status.Usage) }
{
    match fault {
        Some(fault) => announce(out, fault),
        None => write_last(out, &end_line(count)),
    }
}

/// Writes the last of an output's text.
pub fn write_last<K: Sink>(out: &mut K, last: &[u8]) -> Status
    ensures answers { (result ≡ Status.Ok) ⊎ (result ≡ Status.WriteFault)
        ⊎ (result ≡ Status.Memory) }
    ensures written { (start : Option (List ℕ)) (text : List ℕ)
        → Appends start (K.taken out.old) text
        → HasWritten NoReadFailed [] (text ++ last.now) result start (K.taken out.new) }
    ensures write { result ≡ Status.WriteFault → Rose (K.faults out.old) (K.faults out.new) }
{
    match write_all(out, last) {
        Ok(()) => Status::Ok,
        Err(trouble) => stop(out, trouble),
    }
}

/// Ends a run whose output could not be written: where memory was wanted, a line says so.
pub fn stop<K: Sink>(out: &mut K, trouble: Trouble) -> Status
    ensures answers { (result ≡ Status.WriteFault) ⊎ (result ≡ Status.Memory) }
    ensures written { (start : Option (List ℕ)) (text : List ℕ)
        → AppendsCut start (K.taken out.old) text
        → HasWritten NoReadFailed [] text result start (K.taken out.new) }
    ensures write { result ≡ Status.WriteFault
        → (trouble ≡ Trouble.Failed) ⊎ Rose (K.faults out.old) (K.faults out.new) }
    ensures later { K.faults out.old ≤ K.faults out.new }
{
    match trouble {
        Trouble::Failed => Status::WriteFault,
        Trouble::Memory => announce(out, Fault::Memory),
    }
}

/// Writes a fault's line, and answers its status, or that of a failed write.
pub fn announce<K: Sink>(out: &mut K, fault: Fault) -> Status
    ensures ends { LineEnds (fault_status fault) (fault_line fault) (K.taken out.old)
        (K.taken out.new) result }
    ensures write { result ≡ Status.WriteFault → Rose (K.faults out.old) (K.faults out.new) }
    ensures later { K.faults out.old ≤ K.faults out.new }
{
    match write_all(out, &fault.line()) {
        Ok(()) => fault.status(),
        Err(Trouble::Failed) => Status::WriteFault,
        Err(Trouble::Memory) => Status::Memory,
    }
}

/// The last line of what doesn't end with a fault: how many cycles there were, or cases.
#[tactic(auto, unfolding(crate::specs::FaultLines::end_line))]
pub fn end_line(count: u64) -> ArrayVec<u8, LINE>
    ensures { result.items ≡ end_line count }
{
    let mut line = ArrayVec::new();
    append(&mut line, b"end ");
    append_decimal(&mut line, count);
    append(&mut line, b"\n");
    line
}
