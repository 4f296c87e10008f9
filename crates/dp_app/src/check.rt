//! A check of a plant: how far a bad position reference can move each of its thrusters, case by case.
ghost use Rattle.std.specs.Prelude.{◌≡◌, ◌⊎◌, ◌++◌, ◌+◌, ◌≤◌, [], All, OnErr, OnOk, Some, length};
ghost use Rattle.std.specs.Io.KnownBytes.{Appends};
ghost use Rattle.arrayvec.specs.ArrayVec.{array_vec_len};
ghost use Rattle.dp_cert.specs.{IsShareRow};
ghost use Rattle.dp_machine.specs.{IsAcceptedPlant};
ghost use Rattle.dp_shell.specs.{AppendsCut, HasWriteCause, Rose};
ghost use Rattle.dp_app.specs.Words.{check};
ghost use Rattle.dp_app.specs.{HasWritten, NoReadFailed, Runs, check_text};
ghost use Rattle.dp_app.specs.Check.{bound_line, bound_lines, case_text, cases_text};

use crate::Status;
use crate::ending::{announce, end_line, stop, write_last};
use crate::fault::Fault;
use arrayvec::ArrayVec;
use dp_accept::{AcceptedPlant, accept_plant};
use dp_cert::Accepted;
use dp_plant::RawCase;
use dp_shell::{Shelf, Sink, Trouble, write_all};
use dp_text::{append, append_decimal, append_wide};
use std::alloc::Global;

/// Room for the text of a case.
const CASE: usize = 2048;

/// Reads and judges a plant, and writes `accepted`, for each of its cases the two numbers of each thruster, and how many cases there are.
///
/// The numbers C and R of a thruster say that replacing one position reference for any number of cycles, in which the other two stay
/// within s nanometres of each other, moves 2^20 times its force, in newtons, by at most C * s + R.
pub fn check<F: Shelf, K: Sink>(alloc: Global, name: &str, shelf: &mut F, out: &mut K) -> Status
    ensures { Runs F.files F.apart F.faults K.taken K.faults (Some (check name.now))
        shelf.old shelf.new out.old out.new result }
{
    match accept_plant(alloc, shelf, name) {
        Ok(plant) => write_check(&plant, out),
        Err(why) => announce(out, Fault::of_plant(why)),
    }
}

/// Writes the text of an accepted plant.
fn write_check<K: Sink>(plant: &AcceptedPlant, out: &mut K) -> Status
    requires { IsAcceptedPlant plant.now.plant plant.now.accepted }
    ensures answers { (result ≡ Status.Ok) ⊎ (result ≡ Status.WriteFault)
        ⊎ (result ≡ Status.Memory) }
    ensures written { HasWritten NoReadFailed [] (check_text plant.now.plant) result
        (K.taken out.old) (K.taken out.new) }
    ensures write { result ≡ Status.WriteFault → Rose (K.faults out.old) (K.faults out.new) }
{
    match write_cases(plant, out) {
        Ok(()) => write_last(out, &end_line(plant.plant.cases.len() as u64)),
        Err(trouble) => stop(out, trouble),
    }
}

/// Writes all but the last line.
fn write_cases<K: Sink>(plant: &AcceptedPlant, out: &mut K) -> Result<(), Trouble>
    requires { IsAcceptedPlant plant.now.plant plant.now.accepted }
    ensures ok { OnOk result (Appends (K.taken out.old) (K.taken out.new)
        (cases_text plant.now.plant)) }
    ensures err { OnErr result (AppendsCut (K.taken out.old) (K.taken out.new)
        (cases_text plant.now.plant)) }
    ensures cause { HasWriteCause (K.faults out.old) (K.faults out.new) result }
{
    write_all(out, b"accepted\n")?;
    for case in plant.plant.cases.as_slice() {
        write_all(out, &case_text(&plant.accepted, case))?;
    }
    Ok(())
}

/// The text of a case.
#[tactic(auto, unfolding(crate::specs::Check::case_text))]
fn case_text(accepted: &Accepted, case: &RawCase) -> ArrayVec<u8, CASE>
    requires { All IsShareRow case.now.b.items }
    ensures { result.items ≡ case_text accepted.now.cert case.now }
{
    let mut text = ArrayVec::new();
    append(&mut text, b"case ");
    append_decimal(&mut text, u64::from(case.lost));
    append(&mut text, b"\n");
    append_bounds(&mut text, &accepted.bounds(case));
    text
}

/// Appends the line of each thruster.
fn append_bounds(text: &mut ArrayVec<u8, CASE>, bounds: &[(i128, i128)])
    requires few { length bounds.now ≤ 12 }
    requires room { array_vec_len text.old ≤ 32 }
    ensures { text.new.items ≡ text.old.items ++ bound_lines 0 bounds.now }
{
    for k in 0..bounds.len() {
        append_bound(text, k as u64, bounds[k]);
    }
}

/// Appends the line of thruster `k`.
#[tactic(auto, unfolding(crate::specs::Check::bound_line))]
fn append_bound(text: &mut ArrayVec<u8, CASE>, k: u64, bound: (i128, i128))
    requires { array_vec_len text.old + 108 ≤ CASE }
    ensures text { text.new.items ≡ text.old.items ++ bound_line k bound }
    ensures len { array_vec_len text.new ≤ array_vec_len text.old + 108 }
{
    let (gain, offset) = bound;
    append(text, b"t");
    append_decimal(text, k);
    append(text, b" C ");
    append_wide(text, gain);
    append(text, b" R ");
    append_wide(text, offset);
    append(text, b"\n");
}
