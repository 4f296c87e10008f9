ghost use Rattle.std.specs.Prelude.{◌≡◌, ◌+◌, ◌-◌, ◌^◌, ◌<◌, ℕ, List, [], ◌∷◌, Some, None, length, false};
ghost use Rattle.dp_plant.specs.{IsFrameInRange};
ghost use Rattle.dp_frame.specs.Ranges.{IsEntryWithin, IsFeedInRange};
ghost use Rattle.dp_frame.specs.Wires.{IsWire};
ghost use Rattle.dp_frame.specs.Frames.{frame_of, no_frame, IsFrameBounded};
ghost use Rattle.dp_frame.specs.Feeds.{answer, closed, ClosesCycle, feed_of, given, is_closed, last_frame, told};
ghost use Rattle.dp_frame.specs.Record.{entries, last_cycle};
ghost use Rattle.dp_frame.specs.declared.entry.Entry.{Entry};
ghost use Rattle.dp_frame.specs.Progresses.{ProgressRepresents, Follows, IsSoundProgress};

use crate::entry::{Entry, Judged};
use crate::fault::Refusal;
use crate::frames::{empty_frame, note};
use crate::judging::judge;
use crate::settings::Settings;
use crate::{Ended, Feed};
use dp_plant::Frame;

/// What is kept of the lines so far.
#[derive(Drop)]
pub struct Progress {
    pub settings: Settings,
    /// The first line that can't be taken.
    pub refusal: Option<Refusal>,
    /// How many lines there were.
    pub number: u64,
    /// The time of the last one that isn't empty, or 0.
    pub last: u64,
    /// Whether there was one.
    pub begun: bool,
    /// The frame of its cycle, or frame 0.
    pub kept: Frame,
    /// The frame that was closed last.
    pub completed: Frame,
}

impl Progress {
    /// Judges the next line, and answers what it brings to an end.
    pub(crate) fn line(&mut self, line: &[u8]) -> Ended
        requires going { self.old.refusal ≡ None }
        requires sound { IsSoundProgress self.old }
        requires few { self.old.number < 2 ^ 40 }
        ensures represents { (lines : List (List ℕ)) → ProgressRepresents self.old lines
            → ProgressRepresents self.new (line.now ∷ lines) }
        ensures answer { (lines : List (List ℕ)) → ProgressRepresents self.old lines
            → feed_of self.new.completed result ≡ answer self.old.settings lines (line.now ∷ lines) }
        ensures range { IsFeedInRange self.old.settings.groups (feed_of self.new.completed result) }
        ensures next { self.new.kept.cycle
            ≡ self.old.kept.cycle + length (given (feed_of self.new.completed result)) }
        ensures closes { ClosesCycle self.old.kept.cycle (feed_of self.new.completed result) }
        ensures going { result ≡ Ended.Nothing → self.new.refusal ≡ None }
        ensures sound { IsSoundProgress self.new }
        ensures number { self.new.number ≡ self.old.number + 1 }
        ensures settings { self.new.settings ≡ self.old.settings }
    {
        self.number += 1;
        match judge(&self.settings, self.last, line) {
            Judged::Blank => Ended::Nothing,
            Judged::Good(entry) => {
                self.last = entry.time;
                self.begun = true;
                enter(&mut self.kept, &mut self.completed, &entry)
            }
            Judged::Faulty(kind) => self.refuse(Refusal::Faulty {
                line: self.number,
                kind,
            }),
            Judged::TooMany { cycle } => self.refuse(Refusal::TooMany {
                line: self.number,
                cycle,
            }),
        }
    }

    /// The answer that tells what came to its end.
    pub(crate) fn feed_of(&self, ended: Ended) -> Feed
        ensures { result ≡ feed_of self.now.completed ended }
    {
        match ended {
            Ended::Nothing => Feed::More,
            Ended::Cycle { empty } => Feed::Closed {
                frame: self.completed,
                empty,
            },
            Ended::Record(refusal) => refusal.told(),
        }
    }

    /// The last frame, if there was a line that isn't empty.
    pub(crate) fn last_frame(&self) -> Feed
        requires { IsSoundProgress self.now }
        ensures range { IsFeedInRange self.now.settings.groups result }
        ensures closes { ClosesCycle self.now.kept.cycle result }
        ensures answer { (lines : List (List ℕ)) → ProgressRepresents self.now lines → self.now.refusal ≡ None
            → result ≡ last_frame (entries self.now.settings lines) }
    {
        if self.begun {
            Feed::Closed {
                frame: self.kept,
                empty: 0,
            }
        } else {
            Feed::More
        }
    }

    fn refuse(&mut self, refusal: Refusal) -> Ended
        ensures refused { self.new ≡ record self.old { refusal = Some refusal } }
        ensures result { result ≡ Ended.Record refusal }
    {
        self.refusal = Some(refusal);
        Ended::Record(refusal)
    }
}

/// Counts an entry to the kept frame, or to the one that it opens.
fn enter(kept: &mut Frame, completed: &mut Frame, entry: &Entry) -> Ended
    requires wire { IsWire 8 entry.now.wire }
    requires room { IsFrameBounded (2 ^ 40 - 1) kept.old }
    ensures kept { (es : List Entry) → kept.old ≡ frame_of (last_cycle es) es → Follows es entry.now
        → kept.new ≡ frame_of entry.now.cycle (entry.now ∷ es) }
    ensures answer { (es : List Entry) → kept.old ≡ frame_of (last_cycle es) es → Follows es entry.now
        → feed_of completed.new result ≡ closed es (entry.now ∷ es) }
    ensures bounded { (n : ℕ) → IsFrameBounded n kept.old → IsFrameBounded (n + 1) kept.new }
    ensures range { (groups : ℕ) → IsFrameInRange groups kept.old → IsEntryWithin groups entry.now
        → IsFrameInRange groups kept.new × IsFeedInRange groups (feed_of completed.new result) }
    ensures next { kept.new.cycle ≡ kept.old.cycle + length (given (feed_of completed.new result)) }
    ensures closes { ClosesCycle kept.old.cycle (feed_of completed.new result) }
{
    let cycle = kept.cycle;
    if cycle < entry.cycle {
        begin(kept, completed, entry.cycle);
        note(kept, entry);
        Ended::Cycle {
            empty: entry.cycle - cycle - 1,
        }
    } else {
        note(kept, entry);
        Ended::Nothing
    }
}

/// Begins the frame of a cycle, and sets the kept one aside.
fn begin(kept: &mut Frame, completed: &mut Frame, cycle: u64)
    ensures completed { completed.new ≡ kept.old }
    ensures kept { kept.new ≡ no_frame cycle }
    ensures range { cycle < 2 ^ 20 → (groups : ℕ) → IsFrameInRange groups kept.new }
{
    set_aside(kept, completed);
    *kept = empty_frame(cycle);
}

/// Copies a frame. In a function of its own it is one move, with no copy between.
fn set_aside(kept: &Frame, completed: &mut Frame)
    ensures { completed.new ≡ kept.now }
{
    *completed = *kept;
}

impl Refusal {
    /// The answer that names it.
    pub(crate) fn told(self) -> Feed
        ensures value { result ≡ told self }
        ensures gives { given result ≡ [] }
        ensures range { (groups : ℕ) → IsFeedInRange groups result }
        ensures closes { (n : ℕ) → ClosesCycle n result }
        ensures closed { is_closed result ≡ false }
    {
        match self {
            Refusal::Faulty { line, kind } => Feed::Fault { line, kind },
            Refusal::TooMany { line, cycle } => Feed::TooMany { line, cycle },
        }
    }
}
