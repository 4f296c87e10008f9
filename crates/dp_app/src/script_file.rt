//! The script of a file: the file is read and its lines are judged.
ghost use Rattle.std.specs.Prelude.{◌≡◌, ◌⊎◌, IfErr, IfOk, IfSome, IsErrOf, IsSomeAnd, Err, Ok};
ghost use Rattle.dp_accept.specs.{prefix_of, prefix_read};
ghost use Rattle.dp_shell.specs.{ReadsOnly, Rose, text_named};
ghost use Rattle.dp_app.specs.{IsOfScript, script_in, script_limit, script_within};

use dp_script::{Script, ScriptFault, ScriptKind};
use dp_shell::{FilePart, ReadTrouble, Shelf, read_whole};
use std::alloc::Global;

/// The most bytes of a script.
const SCRIPT_LIMIT: usize = 1 << 24;

/// Why a file gives no script.
#[derive(Clone, Copy, Debug, PartialEq, Eq)]
pub enum ScriptTrouble {
    /// It can't be read.
    Read,
    /// Memory was wanted.
    Memory,
    /// It is longer than its limit.
    Long,
    /// Its first faulty line.
    Line { line: u64, kind: ScriptKind },
}

/// Reads a script, and judges its lines.
pub fn read_script<F: Shelf>(
    alloc: Global,
    shelf: &mut F,
    name: &str,
) -> Result<Script, ScriptTrouble>
    ensures ok { IfOk result (λ script. IfSome (F.files shelf.old) (λ files.
        script_in (text_named files name.now) ≡ Ok script)) }

    // A refusal that the file gives is the file's.
    ensures err { IfErr result (λ why. IsOfScript why → IfSome (F.files shelf.old) (λ files.
        script_in (text_named files name.now) ≡ Err why)) }

    // A fault of reading is counted.
    ensures failed { IsErrOf result ScriptTrouble.Read
        → Rose (F.faults shelf.old name.now) (F.faults shelf.new name.now) }
    ensures reads { ReadsOnly F.files F.apart F.faults name.now shelf.old shelf.new }
{
    let part = read_part(alloc, shelf, name)?;
    script_within(alloc, &part)
}

/// Reads a script up to its limit.
fn read_part<F: Shelf>(alloc: Global, shelf: &mut F, name: &str) -> Result<FilePart, ScriptTrouble>
    ensures ok { IfOk result (λ part. IfSome (F.files shelf.old) (λ files.
        IsSomeAnd (text_named files name.now)
        (λ text. prefix_read part ≡ prefix_of script_limit text))) }
    ensures err { IfErr result (λ why. (why ≡ ScriptTrouble.Read)
        ⊎ (why ≡ ScriptTrouble.Memory)) }
    ensures failed { IsErrOf result ScriptTrouble.Read
        → Rose (F.faults shelf.old name.now) (F.faults shelf.new name.now) }
    ensures reads { ReadsOnly F.files F.apart F.faults name.now shelf.old shelf.new }
{
    match read_whole(alloc, shelf, name, SCRIPT_LIMIT) {
        Ok(part) => Ok(part),
        Err(ReadTrouble::Failed) => Err(ScriptTrouble::Read),
        Err(ReadTrouble::Memory) => Err(ScriptTrouble::Memory),
    }
}

/// The script of a file that was read, unless its length or a line is refused.
#[tactic(auto, unfolding(crate::specs::Scripts::script_within))]
fn script_within(alloc: Global, part: &FilePart) -> Result<Script, ScriptTrouble>
    ensures ok { IfOk result (λ script. script_within (prefix_read part.now) ≡ Ok script) }
    ensures err { IfErr result (λ why. IsOfScript why
        → script_within (prefix_read part.now) ≡ Err why) }
    ensures read { IsErrOf result ScriptTrouble.Read → ⊥ }
{
    if part.is_cut {
        return Err(ScriptTrouble::Long);
    }
    match Script::of(alloc, &part.text) {
        Ok(script) => Ok(script),
        Err(ScriptFault::Line { line, kind }) => Err(ScriptTrouble::Line { line, kind }),
        Err(ScriptFault::Memory) => Err(ScriptTrouble::Memory),
    }
}
