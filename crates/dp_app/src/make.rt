//! The record that is made of a number is written.
ghost use Rattle.std.specs.Prelude.{◌≡◌, ◌⊎◌, []};
ghost use Rattle.dp_script.specs.{made};
ghost use Rattle.dp_shell.specs.{Rose};
ghost use Rattle.dp_app.specs.{HasWritten, NoReadFailed};

use crate::Status;
use crate::ending::stop;
use dp_shell::Sink;

/// Writes the record of a number.
pub fn make<K: Sink>(number: u32, out: &mut K) -> Status
    ensures answers { (result ≡ Status.Ok) ⊎ (result ≡ Status.WriteFault)
        ⊎ (result ≡ Status.Memory) }
    ensures written { HasWritten NoReadFailed [] (made number) result (K.taken out.old)
        (K.taken out.new) }
    ensures write { result ≡ Status.WriteFault → Rose (K.faults out.old) (K.faults out.new) }
{
    match dp_script::make(number, out) {
        Ok(()) => Status::Ok,
        Err(trouble) => stop(out, trouble),
    }
}
