//! Records that are read piece by piece while they are played: the sample plant, and an empty script.
ghost use Rattle.std.specs.Prelude.{◌≡◌, ◌<◌, None, IfOk, false, length};
ghost use Rattle.std.specs.Io.{ReadsAtMost, WritesAtMost};
ghost use Rattle.std.specs.Io.KnownBytes.{WriteAppends};
ghost use Rattle.dp_shell.specs.{HasCause, HasWriteCause, NoneFalls, OthersStay, ReadsPart, untold};

use super::*;
use dp_shell::{Failed, PlainShelf, PlainSink, Trouble};
use std::cell::Cell;

/// Three cycles at one place. Their lines end at the offsets 48, 105 and 162.
pub const THREE_CYCLES: &str =
    "0 pos0 L 1000 0\n0 pos1 L 1000 0\n0 pos2 L 1000 0\n1000 pos0 L 1000 0\n1000 pos1 L 1000 0\n1000 pos2 L 1000 0\n2000 pos0 L 1000 0\n2000 pos1 L 1000 0\n2000 pos2 L 1000 0\n";

/// Their blocks.
pub const FIRST: &str =
    "cycle 0 LLL\nt0 F 0 0 0 0\nt1 F 0 0 0 0\nt2 F 0 0 0 0\nt3 F 0 0 0 0\nt4 F 0 0 0 0\nt5 F 0 0 0 0\nalarm gyro\nalarm wind\n";

pub const SECOND: &str =
    "cycle 1 LLL\nt0 F -171 -171 -171 -171\nt1 F -171 -171 -171 -171\nt2 F 0 0 0 0\nt3 F 0 0 0 0\nt4 F 0 0 0 0\nt5 F 0 0 0 0\nalarm gyro\nalarm wind\n";

pub const THIRD: &str =
    "cycle 2 LLL\nt0 F -329 -329 -329 -329\nt1 F -329 -329 -329 -329\nt2 F 0 0 0 0\nt3 F 0 0 0 0\nt4 F 0 0 0 0\nt5 F 0 0 0 0\nalarm gyro\nalarm wind\n";

/// What a replay of them gives.
fn all_blocks(alloc: Global) -> Result<String, Fail> {
    Ok(format!(in alloc; "0~{FIRST}{SECOND}{THIRD}end 3\n")?)
}

/// A time that falls after six cycles.
const FALLING_TIME: &str =
    "0 pos0 L 0 0\n1000 pos0 L 0 0\n2000 pos0 L 0 0\n3000 pos0 L 0 0\n4000 pos0 L 0 0\n5000 pos0 L 0 0\n4000 pos0 L 0 0\n";

/// Replays a record that is read at most `step` bytes a call, where call `call` of the record fails, the first being call 1.
pub fn in_steps(
    rt: &impl Abort,
    alloc: Global,
    step: usize,
    call: u64,
    record: &str,
) -> Result<String, Fail> {
    let plant = text_of(alloc, S1)?;
    assert!(rt; step > 0 && call < 1000);
    let of_plant = plant.len().div_ceil(step) as u64 + 1;
    let of_script = 1;
    assert!(rt; of_plant < 1_000_000);
    let files = named(alloc, &plant, record.as_bytes(), b"")?;
    let failing = [of_plant + of_script + call, 0];
    told_failing(rt, alloc, REPLAY, files, failing, step)
}

/// Files and a sink that never fail.
#[test]
fn plain_files_are_played(rt: HostRuntime) -> Result<(), Fail> {
    let alloc = rt.alloc();
    let plant = text_of(alloc, S1)?;
    let files = named(alloc, &plant, THREE_CYCLES.as_bytes(), b"")?;
    assert!(rt; fits_shelf(&files));
    let mut out = PlainSink::new(alloc);
    let words = words_in(alloc, REPLAY)?;
    let code = code_over(alloc, &words, &mut PlainShelf::new(files), &mut out);
    is_same(
        &rt,
        &shown(alloc, code, out.bytes())?,
        &all_blocks(alloc)?,
        "plain files",
    );
    Ok(())
}

/// The size of a piece changes nothing.
#[test]
fn steps_change_nothing(rt: HostRuntime) -> Result<(), Fail> {
    is_same_in_steps(&rt, rt.alloc(), THREE_CYCLES)?;
    is_same_in_steps(&rt, rt.alloc(), FALLING_TIME)
}

/// A record that is read 1, 7 and 4096 bytes a call.
fn is_same_in_steps(rt: &impl Abort, alloc: Global, record: &str) -> Result<(), Fail> {
    let plant = text_of(alloc, S1)?;
    let files = named(alloc, &plant, record.as_bytes(), b"")?;
    let wanted = told(rt, alloc, REPLAY, files)?;
    let steps: &[usize] = &[1, 7, 4096];
    for step in steps {
        let seen = in_steps(rt, alloc, *step, 999, record)?;
        is_same(rt, &seen, &wanted, record);
    }
    Ok(())
}

/// A read of the record fails after so many calls of a byte each: a text of L bytes takes L + 1 of them. A row is one of `hostile`.
#[test]
fn failed_reads_follow_the_blocks(rt: HostRuntime) -> Result<(), Fail> {
    let rows: &[&str] = &[
        "byte~1~1~3~0~fault read record\n~",
        "byte~67~67~3~0~fault read record\n~",
        "byte~68~68~3~1~fault read record\n~",
        "byte~124~124~3~1~fault read record\n~",
        "byte~125~125~3~2~fault read record\n~",
        "byte~163~163~3~2~fault read record\n~",
        "byte~164~164~0~3~end 3\n~",
    ];
    hostile::all_hurt(&rt, rt.alloc(), rows)
}

/// A shelf that gives a byte a call, and fails where the record is read past an offset before so many bytes were written.
#[derive(Drop)]
struct Waiting<'a> {
    files: MemoryShelf,
    taken: &'a Cell<usize>,
    failures: u64,
}

impl Waiting<'_> {
    /// The record is read past the line that ends a cycle, and the block of that cycle wasn't written.
    fn is_early(&self, from: u64) -> bool {
        let taken = self.taken.get();
        from >= 67 && taken < FIRST.len() || from >= 124 && taken < FIRST.len() + SECOND.len()
    }
}

impl Shelf for Waiting<'_> {
    ghost files = { λ s. untold };

    ghost apart = { λ s name. false };

    ghost faults = { λ s name. s.failures };

    fn read(&mut self, name: &str, from: u64, into: &mut [u8]) -> Result<usize, Failed>
        ensures bound { ReadsAtMost result into.new }
        ensures part { ReadsPart (untold) name.now from result into.new }
        ensures cause { HasCause self.old.failures self.new.failures result }
        ensures others { OthersStay (λ n. false) name.now (λ n. self.old.failures)
            (λ n. self.new.failures) }
        ensures none_falls { NoneFalls (λ n. self.old.failures) (λ n. self.new.failures) }
    {
        if name == "record" && self.is_early(from) {
            self.failures = self.failures.saturating_add(1);
            return Err(Failed);
        }
        match self.files.read(name, from, into) {
            Ok(count) => Ok(count),
            Err(Failed) => {
                self.failures = self.failures.saturating_add(1);
                Err(Failed)
            }
        }
    }

    ghost shared = { λ s a b p q i. s.failures };
}

/// A sink that tells how many bytes it took.
#[derive(Drop)]
struct Telling<'a> {
    bytes: PlainSink,
    taken: &'a Cell<usize>,
}

impl Sink for Telling<'_> {
    ghost taken = { λ s. None };

    ghost faults = { λ s. 0 };

    fn write(&mut self, piece: &[u8]) -> Result<usize, Trouble>
        ensures bound { WritesAtMost result piece.now }
        ensures some { 0 < length piece.now → IfOk result (λ n. 0 < n) }
        ensures taken { WriteAppends None None result piece.now }
        ensures cause { HasWriteCause 0 0 result }
    {
        match self.bytes.write(piece) {
            Ok(count) => {
                self.taken.set(self.taken.get().saturating_add(count));
                Ok(count)
            }
            Err(_) => Err(Trouble::Memory),
        }
    }
}

/// Each block is written before the record is read past the line that ends its cycle.
#[test]
fn blocks_are_written_at_once(rt: HostRuntime) -> Result<(), Fail> {
    let seen = told_waiting(&rt, rt.alloc())?;
    is_same(&rt, &seen, &all_blocks(rt.alloc())?, "a byte a call");
    Ok(())
}

/// What a replay tells over such a shelf and such a sink.
fn told_waiting(rt: &impl Abort, alloc: Global) -> Result<String, Fail> {
    let plant = text_of(alloc, S1)?;
    let files = named(alloc, &plant, THREE_CYCLES.as_bytes(), b"")?;
    let words = words_in(alloc, REPLAY)?;
    assert!(rt; fits_shelf(&files));
    let taken = Cell::new(0);
    let mut shelf = Waiting {
        files: MemoryShelf::in_steps(files, Vec::new(alloc), 1),
        taken: &taken,
        failures: 0,
    };
    let mut out = Telling {
        bytes: PlainSink::new(alloc),
        taken: &taken,
    };
    let code = code_over(alloc, &words, &mut shelf, &mut out);
    shown(alloc, code, out.bytes.bytes())
}
