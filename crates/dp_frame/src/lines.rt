ghost use Rattle.std.specs.Prelude.{◌≡◌, ◌≢◌, ◌+◌, ◌^◌, ◌<◌, ◌≤◌, ℕ, List, [], ◌∷◌, ◌++◌, None, length, take, true};
ghost use Rattle.dp_text.specs.{stripped};
ghost use Rattle.dp_frame.specs.Record.{all_lines, first_refusal, line_len};
ghost use Rattle.dp_frame.specs.Cycles.{IsAnswered};
ghost use Rattle.dp_frame.specs.Feeds.{answer_to, calls_left, ClosesCycle, ending, feed_of, given, is_closed, is_more, phase_after};
ghost use Rattle.dp_frame.specs.Ranges.{IsFeedInRange};
ghost use Rattle.dp_plant.specs.declared.frames.Frame.{Frame};
ghost use Rattle.dp_frame.specs.LocalFrame.{IsOrigin, origin_of};
ghost use Rattle.dp_frame.specs.Represents.{IsOpen, Represents, RepresentsWhole, settings_of};

use crate::frames::empty_frame;
use crate::progress::Progress;
use crate::settings::Settings;
use crate::{Ended, Fed, Feed, Origin, Phase};
use arrayvec::ArrayVec;
use dp_plant::Plant;
use dp_text::append;
use dp_trig::Trig;
use memchr::memchr;
use std::marker::Model;

const LINE_FEED: u8 = b'\n';

/// Reads a record byte by byte into frames; a contract sees it as the record `LinesState`.
///
/// It keeps no text but the first 193 bytes of the line that hasn't ended, and takes no memory.
#[derive(Drop)]
pub struct Lines {
    progress: Progress,
    prefix: ArrayVec<u8, 193>,
    prefix_len: u64,
    bytes: u64,
    phase: Phase,
}

impl Model for Lines {
    ghost use Rattle.dp_frame.specs.LinesState.{LinesState, IsSoundState};

    ghost Value = { LinesState };

    ghost view = { λ l. record { progress = l.progress; prefix = l.prefix.items; prefix_len = l.prefix_len; bytes = l.bytes; phase = l.phase } };

    ghost invariant = { λ l. IsSoundState
        record { progress = l.progress; prefix = l.prefix.items; prefix_len = l.prefix_len; bytes = l.bytes; phase = l.phase } };
}

impl Lines {
    /// A reader of a plant's record, before its first byte.
    ///
    /// A cycle has at least a millisecond, there are at most 8 groups, and the origin is at most 89 degrees from the equator.
    pub fn new(plant: &Plant, trig: &Trig) -> Self
        requires cycle { 0 < plant.now.cycle_ms }
        requires groups { plant.now.groups ≤ 8 }
        requires origin { IsOrigin (origin_of plant.now) }
        ensures represents { Represents result [] }
        ensures settings { result.progress.settings ≡ settings_of plant.now }
        ensures open { IsOpen result }
        ensures first { result.progress.kept.cycle ≡ 0 }
    {
        let kept = empty_frame(0);
        Lines {
            progress: Progress {
                settings: Settings {
                    cycle_ms: plant.cycle_ms,
                    groups: plant.groups,
                    origin: Origin::of(plant, trig),
                },
                refusal: None,
                number: 0,
                last: 0,
                begun: false,
                kept,
                completed: kept,
            },
            prefix: ArrayVec::new(),
            prefix_len: 0,
            bytes: 0,
            phase: Phase::Open,
        }
    }

    /// How far the record was read.
    pub fn phase(&self) -> Phase
        ensures { result ≡ self.now.phase }
    {
        self.phase
    }

    /// How many bytes of the record were taken.
    pub fn bytes(&self) -> u64
        ensures { result ≡ self.now.bytes }
    {
        self.bytes
    }

    /// Takes the next byte, and answers what it brings to an end; only a line feed ends a line.
    ///
    /// - [`Feed::Closed`]: the line that ended is good, isn't empty, and is of a later cycle than the frame that was kept. That frame is
    ///   given, with the number of cycles between, which have no lines. Before the first line the kept frame is that of cycle 0.
    /// - [`Feed::Fault`] and [`Feed::TooMany`]: the line that ended is the first that can't be taken. Every later call answers the same.
    /// - [`Feed::More`]: neither. Most bytes end no line.
    ///
    /// It may be called until `finish` is, for at most 2^40 bytes. [`Lines::feed_piece`] takes many bytes at once.
    pub fn feed(&mut self, byte: u8) -> Feed
        requires open { IsOpen self.old }
        requires few { self.old.bytes < 2 ^ 40 }
        ensures represents { (text : List ℕ) → Represents self.old text
            → Represents self.new (text ++ byte ∷ []) }
        ensures answer { (text : List ℕ) → Represents self.old text
            → result ≡ answer_to self.old.progress.settings text byte }

        // The frame that is closed is of the kept frame's cycle, and the next kept one follows it and the empty ones.
        ensures range { IsFeedInRange self.old.progress.settings.groups result }
        ensures closes { ClosesCycle self.old.progress.kept.cycle result }
        ensures next { self.new.progress.kept.cycle
            ≡ self.old.progress.kept.cycle + length (given result) }

        ensures bytes { self.new.bytes ≡ self.old.bytes + 1 }
        ensures settings { self.new.progress.settings ≡ self.old.progress.settings }
        ensures open { IsOpen self.new }
    {
        let (_, ended) = self.take_line(&[byte]);
        self.feed_of(ended)
    }

    /// Takes the next bytes up to the first that brings something to an end, or all of them, and answers what the last of them brings, as
    /// `feed` would. Whoever goes on with what is left of the piece, until nothing is, has fed it whole.
    ///
    /// The bytes of a line are looked through for its end and copied, and are judged once. It may be called as `feed` may.
    pub fn feed_piece(&mut self, piece: &[u8]) -> Fed
        requires open { IsOpen self.old }
        requires some { 0 < length piece.now }
        requires few { self.old.bytes + length piece.now ≤ 2 ^ 40 }
        ensures represents { (text : List ℕ) → Represents self.old text
            → Represents self.new (text ++ take result.taken piece.now) }
        ensures answers { (text : List ℕ) → Represents self.old text
            → IsAnswered self.old.progress.settings text (take result.taken piece.now) result.feed }
        ensures whole { result.feed ≡ Feed.More → result.taken ≡ length piece.now }
        ensures some { 0 < result.taken }
        ensures within { result.taken ≤ length piece.now }

        // As for `feed`.
        ensures range { IsFeedInRange self.old.progress.settings.groups result.feed }
        ensures closes { ClosesCycle self.old.progress.kept.cycle result.feed }
        ensures next { self.new.progress.kept.cycle
            ≡ self.old.progress.kept.cycle + length (given result.feed) }

        ensures bytes { self.new.bytes ≡ self.old.bytes + result.taken }
        ensures settings { self.new.progress.settings ≡ self.old.progress.settings }
        ensures open { IsOpen self.new }
    {
        let mut taken = 0;
        while taken < piece.len() {
            let (count, ended) = self.take_line(&piece[taken..]);
            taken += count;
            match ended {
                Ended::Nothing => (),
                Ended::Cycle { empty } => {
                    return Fed {
                        taken,
                        feed: Feed::Closed {
                            frame: self.progress.completed,
                            empty,
                        },
                    };
                }
                Ended::Record(refusal) => {
                    return Fed {
                        taken,
                        feed: refusal.told(),
                    };
                }
            }
        }
        Fed {
            taken,
            feed: Feed::More,
        }
    }

    /// Takes the next bytes up to a line feed, or all of them, and tells how many, and what the last of them brings to its end. After a
    /// line that can't be taken it takes one byte.
    fn take_line(&mut self, piece: &[u8]) -> (usize, Ended)
        requires open { IsOpen self.old }
        requires some { 0 < length piece.now }
        requires few { self.old.bytes + length piece.now ≤ 2 ^ 40 }
        ensures represents { (text : List ℕ) → Represents self.old text
            → Represents self.new (text ++ take result.0 piece.now) }
        ensures answers { (text : List ℕ) → Represents self.old text
            → IsAnswered self.old.progress.settings text (take result.0 piece.now)
            (feed_of self.new.progress.completed result.1) }
        ensures some { 0 < result.0 }
        ensures within { result.0 ≤ length piece.now }
        ensures range { IsFeedInRange self.old.progress.settings.groups
            (feed_of self.new.progress.completed result.1) }
        ensures closes { ClosesCycle self.old.progress.kept.cycle
            (feed_of self.new.progress.completed result.1) }
        ensures next { self.new.progress.kept.cycle ≡ self.old.progress.kept.cycle
            + length (given (feed_of self.new.progress.completed result.1)) }
        ensures bytes { self.new.bytes ≡ self.old.bytes + result.0 }
        ensures settings { self.new.progress.settings ≡ self.old.progress.settings }
        ensures open_still { IsOpen self.new }
    {
        if let Some(refusal) = self.progress.refusal {
            self.bytes += 1;
            return (1, Ended::Record(refusal));
        }
        let at = line_len(piece);
        if at == piece.len() {
            self.keep_part(piece);
            return (at, Ended::Nothing);
        }
        if self.prefix_len == 0 {
            return (at + 1, self.take_whole(&piece[..at]));
        }
        self.keep_part(&piece[..at]);
        (at + 1, self.end_line())
    }

    /// Judges a line of which no part was kept, with the line feed that ends it, and tells what it brings to its end.
    fn take_whole(&mut self, line: &[u8]) -> Ended
        requires open { IsOpen self.old }
        requires few { self.old.bytes + length line.now < 2 ^ 40 }
        requires going { self.old.progress.refusal ≡ None }
        requires part { line_len line.now ≡ length line.now }
        requires fresh { self.old.prefix_len ≡ 0 }
        ensures represents { (text : List ℕ) → Represents self.old text
            → Represents self.new ((text ++ line.now) ++ 10 ∷ []) }
        ensures answer { (text : List ℕ) → Represents self.old text
            → feed_of self.new.progress.completed result
            ≡ answer_to self.old.progress.settings (text ++ line.now) 10 }
        ensures range { IsFeedInRange self.old.progress.settings.groups
            (feed_of self.new.progress.completed result) }
        ensures closes { ClosesCycle self.old.progress.kept.cycle
            (feed_of self.new.progress.completed result) }
        ensures next { self.new.progress.kept.cycle ≡ self.old.progress.kept.cycle
            + length (given (feed_of self.new.progress.completed result)) }
        ensures bytes { self.new.bytes ≡ self.old.bytes + length line.now + 1 }
        ensures settings { self.new.progress.settings ≡ self.old.progress.settings }
        ensures open_still { IsOpen self.new }
    {
        let count = line.len() as u64;
        self.bytes += count + 1;
        self.progress.line(whole(line, count))
    }

    /// Keeps the next bytes of the line that hasn't ended.
    fn keep_part(&mut self, bytes: &[u8])
        requires open { IsOpen self.old }
        requires few { self.old.bytes + length bytes.now ≤ 2 ^ 40 }
        requires going { self.old.progress.refusal ≡ None }
        requires part { line_len bytes.now ≡ length bytes.now }
        ensures represents { (text : List ℕ) → Represents self.old text
            → Represents self.new (text ++ bytes.now) }
        ensures progress { self.new.progress ≡ self.old.progress }
        ensures bytes { self.new.bytes ≡ self.old.bytes + length bytes.now }
        ensures open_still { IsOpen self.new }
    {
        self.bytes += bytes.len() as u64;
        self.prefix_len += bytes.len() as u64;
        keep(&mut self.prefix, bytes);
    }

    /// Judges the line that a line feed ends, and tells what it brings to its end.
    fn end_line(&mut self) -> Ended
        requires open { IsOpen self.old }
        requires few { self.old.bytes < 2 ^ 40 }
        requires going { self.old.progress.refusal ≡ None }
        ensures represents { (text : List ℕ) → Represents self.old text
            → Represents self.new (text ++ 10 ∷ []) }
        ensures answer { (text : List ℕ) → Represents self.old text
            → feed_of self.new.progress.completed result
            ≡ answer_to self.old.progress.settings text 10 }
        ensures range { IsFeedInRange self.old.progress.settings.groups
            (feed_of self.new.progress.completed result) }
        ensures closes { ClosesCycle self.old.progress.kept.cycle
            (feed_of self.new.progress.completed result) }
        ensures next { self.new.progress.kept.cycle ≡ self.old.progress.kept.cycle
            + length (given (feed_of self.new.progress.completed result)) }
        ensures bytes { self.new.bytes ≡ self.old.bytes + 1 }
        ensures settings { self.new.progress.settings ≡ self.old.progress.settings }
        ensures open_still { IsOpen self.new }
    {
        self.bytes += 1;
        let ended = self
            .progress
            .line(whole(self.prefix.as_slice(), self.prefix_len));
        self.prefix.clear();
        self.prefix_len = 0;
        ended
    }

    /// The answer that tells what came to its end.
    fn feed_of(&self, ended: Ended) -> Feed
        ensures { result ≡ feed_of self.now.progress.completed ended }
    {
        self.progress.feed_of(ended)
    }

    /// Answers what is left after the last byte, one thing a call: what the line without a line feed brings to an end, as `feed` would, and
    /// then the last frame, once, if the record has a good line that isn't empty. After that it answers [`Feed::More`]; where a line can't
    /// be taken it names that line again and again, and gives no last frame.
    pub fn finish(&mut self) -> Feed
        ensures represents { (text : List ℕ) → RepresentsWhole self.old text
            → RepresentsWhole self.new text }
        ensures answer { (text : List ℕ) → RepresentsWhole self.old text
            → result ≡ ending self.old.progress.settings text self.old.phase }
        ensures phase { (text : List ℕ) → RepresentsWhole self.old text → first_refusal self.old.progress.settings (all_lines text) ≡ None
            → self.new.phase ≡ phase_after self.old.progress.settings text self.old.phase }

        // A frame is closed at most twice: by the last line, and as the last frame.
        ensures fewer { is_closed result ≡ true
            → calls_left self.new.phase < calls_left self.old.phase }
        ensures range { IsFeedInRange self.old.progress.settings.groups result }
        ensures closes { ClosesCycle self.old.progress.kept.cycle result }
        ensures next { self.new.phase ≢ Phase.Done
            → self.new.progress.kept.cycle ≡ self.old.progress.kept.cycle + length (given result) }
        ensures bytes { self.new.bytes ≡ self.old.bytes }
        ensures settings { self.new.progress.settings ≡ self.old.progress.settings }
    {
        if let Some(refusal) = self.progress.refusal {
            return refusal.told();
        }
        match self.phase {
            Phase::Open => self.last_line(),
            Phase::Last => {
                self.phase = Phase::Done;
                self.progress.last_frame()
            }
            Phase::Done => Feed::More,
        }
    }

    /// Judges the unfinished line, and answers what it brings to an end, or the last frame where it brings nothing.
    fn last_line(&mut self) -> Feed
        requires open { IsOpen self.old }
        requires going { self.old.progress.refusal ≡ None }
        ensures represents { (text : List ℕ) → Represents self.old text
            → RepresentsWhole self.new text }
        ensures answer { (text : List ℕ) → Represents self.old text
            → result ≡ ending self.old.progress.settings text Phase.Open }
        ensures phase { (text : List ℕ) → Represents self.old text → first_refusal self.old.progress.settings (all_lines text) ≡ None
            → self.new.phase ≡ phase_after self.old.progress.settings text Phase.Open }
        ensures fewer { calls_left self.new.phase < 2 }
        ensures range { IsFeedInRange self.old.progress.settings.groups result }
        ensures closes { ClosesCycle self.old.progress.kept.cycle result }
        ensures next { self.new.phase ≢ Phase.Done
            → self.new.progress.kept.cycle ≡ self.old.progress.kept.cycle + length (given result) }
        ensures bytes { self.new.bytes ≡ self.old.bytes }
        ensures settings { self.new.progress.settings ≡ self.old.progress.settings }
    {
        if self.prefix_len == 0 {
            self.phase = Phase::Done;
            return self.progress.last_frame();
        }
        self.prefix_len = 0;
        let ended = self.progress.line(self.prefix.as_slice());
        if is_nothing(ended) {
            self.phase = Phase::Done;
            return self.progress.last_frame();
        }
        self.phase = Phase::Last;
        self.progress.feed_of(ended)
    }
}

/// The line without the one carriage return at its end.
fn strip(line: &[u8]) -> &[u8]
    ensures { result.now ≡ stripped line.now }
{
    match line.strip_suffix(b"\r") {
        Some(rest) => rest,
        None => line,
    }
}

/// How many bytes come before the next line feed, or the end.
fn line_len(text: &[u8]) -> usize
    ensures { result ≡ line_len text.now }
{
    memchr(LINE_FEED, text).unwrap_or(text.len())
}

/// Keeps the next bytes of a line, as many as there is room for.
fn keep(prefix: &mut ArrayVec<u8, 193>, bytes: &[u8])
    ensures kept { length prefix.old.items ≤ 193
        → prefix.new.items ≡ take 193 (prefix.old.items ++ bytes.now) }
    ensures short { length prefix.old.items ≤ 193 → length prefix.new.items ≤ 193 }
{
    let count = bytes.len().min(prefix.remaining_capacity());
    append(prefix, &bytes[..count]);
}

/// The line to judge: one of more than 193 bytes is too long with and without a carriage return.
fn whole(prefix: &[u8], prefix_len: u64) -> &[u8]
    ensures short { prefix_len ≤ 193 → result.now ≡ stripped prefix.now }
    ensures long { 193 < prefix_len → result.now ≡ prefix.now }
{
    if prefix_len > 193 {
        prefix
    } else {
        strip(prefix)
    }
}

/// Nothing comes to its end.
fn is_nothing(ended: Ended) -> bool
    ensures { (frame : Frame) → result ≡ is_more (feed_of frame ended) }
{
    match ended {
        Ended::Nothing => true,
        Ended::Cycle { .. } | Ended::Record(_) => false,
    }
}
