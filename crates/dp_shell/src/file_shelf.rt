ghost use Rattle.std.specs.Prelude.{◌≡◌, ◌<◌, ◌≤◌, ℕ, List, None, IfOk, IfSome, IsOk, MatchResult, length, take};
ghost use Rattle.std.specs.Option.{ForSome};
ghost use Rattle.std.specs.Io.{ReadsAtMost};
ghost use Rattle.dp_shell.specs.KeptFile.{GaveFront, file_at, next_read, next_read_after};
ghost use Rattle.dp_shell.specs.Faults.{HasCause, NoneFalls, OthersStay};
ghost use Rattle.dp_shell.specs.Names.{counted, is_among, place_of, texts_of};
ghost use Rattle.dp_shell.specs.Texts.{ReadsPart, untold};

use crate::settling::{one_more, read_once, settle};
use crate::{Failed, Shelf};
use std::io::{Seek, SeekFrom};
use std::rt::Files;
use std::{fs, io};

/// How many words are counted apart.
const APART: usize = 8;

/// Real files. It tells nothing of their content, and counts the failures of each of the first
/// eight words, and those of all other names together.
///
/// The file of one of these words stays open after a good read, for the read that begins where it
/// ended. So a text that is read piece by piece is one file's, whatever its name comes to mean
/// meanwhile, and a pipe can be read.
#[derive(Drop)]
pub struct FileShelf<'a, R: Files> {
    rt: &'a R,
    /// The words that are counted apart.
    words: &'a [&'a str],
    /// One number for each of these words, by its place, and behind them one for all other names.
    counts: [u64; 9],
    /// The file that was read last.
    kept: Option<KeptFile<R::File>>,
    ghost few: { length words.now ≤ 8 },
    ghost of_word: { ForSome kept (λ k. k.place < length words.now) },
}

/// A file that can be read on.
#[derive(Drop)]
struct KeptFile<F: Drop> {
    file: F,
    /// The place of its name among the words that are counted apart.
    place: usize,
    /// The offset of the next read.
    next: u64,
}

impl<'a, R: Files> FileShelf<'a, R> {
    /// A shelf that counts the first eight of these words apart. No read has failed yet.
    pub fn new(rt: &'a R, words: &'a [&'a str]) -> Self
        ensures files { ⟦<FileShelf<'a, R> as Shelf>⟧.files result ≡ None }
        ensures apart { ⟦<FileShelf<'a, R> as Shelf>⟧.apart result
            ≡ is_among (take 8 (texts_of words.now)) }
        ensures faults { (name : List ℕ) → ⟦<FileShelf<'a, R> as Shelf>⟧.faults result name ≡ 0 }
    {
        FileShelf {
            rt,
            words: &words[..words.len().min(APART)],
            counts: [0; 9],
            kept: None,
        }
    }

    /// How many reads of a name have failed, up to 2^64 - 1; all names that aren't counted apart
    /// share one number.
    pub fn failures(&self, name: &str) -> u64
        ensures { result ≡ ⟦<FileShelf<'a, R> as Shelf>⟧.faults self.now name.now }
    {
        self.counts[place(self.words, name)]
    }
}

impl<R: Files> Shelf for FileShelf<'_, R> {
    ghost files = { λ s. untold };

    ghost apart = { λ s. is_among (texts_of s.words.now) };

    ghost faults = { λ s. counted s.counts (texts_of s.words.now) };

    fn read(&mut self, name: &str, from: u64, into: &mut [u8]) -> Result<usize, Failed>
        ensures bound { ReadsAtMost result into.new }
        ensures part { ReadsPart (untold) name.now from result into.new }
        ensures files { untold ≡ untold }
        ensures apart { is_among (texts_of self.new.words.now)
            ≡ is_among (texts_of self.old.words.now) }
        ensures cause { HasCause (counted self.old.counts (texts_of self.old.words.now) name.now)
            (counted self.new.counts (texts_of self.new.words.now) name.now) result }
        ensures others { OthersStay (is_among (texts_of self.old.words.now)) name.now
            (counted self.old.counts (texts_of self.old.words.now))
            (counted self.new.counts (texts_of self.new.words.now)) }
        ensures none_falls { NoneFalls (counted self.old.counts (texts_of self.old.words.now))
            (counted self.new.counts (texts_of self.new.words.now)) }

        // It counts no good read.
        ensures unfailed { IsOk result → self.new.counts ≡ self.old.counts }

        // After a good read the file of a word stays open where that read ended, after a failed one
        // none does.
        ensures kept { MatchResult result (λ n. next_read self.new.kept
            ≡ next_read_after (length self.old.words.now)
            (place_of (texts_of self.old.words.now) name.now) from n)
            (λ _. next_read self.new.kept ≡ None) }

        // A file that is read on loses just the bytes that are answered, and none is answered only
        // at its end.
        ensures bytes { IfSome (file_at self.old.kept
            (place_of (texts_of self.old.words.now) name.now) from) (λ before.
            IfSome self.new.kept (λ after. IfOk result (λ n.
            GaveFront (R.File.remaining before) (R.File.remaining after.file) n into.new))) }
    {
        let at = place(self.words, name);
        let file = file_at(self.kept.take(), at, from);
        match read_on(self.rt, file, name, from, into) {
            Some((file, count)) => {
                self.kept = keep(file, self.words.len(), at, from, count);
                Ok(count)
            }
            None => {
                self.counts[at] = one_more(self.counts[at]);
                Err(Failed)
            }
        }
    }

    ghost use Rattle.dp_shell.specs.Shared.{counted-shared};

    ghost shared = { λ s. counted-shared s.counts (texts_of s.words.now) };
}

/// The place of a name among words, or how many these are.
fn place(words: &[&str], name: &str) -> usize
    ensures value { result ≡ place_of (texts_of words.now) name.now }
    ensures bound { result ≤ length words.now }
{
    for (i, word) in words.iter().enumerate() {
        if *word == name {
            return i;
        }
    }
    words.len()
}

/// The file that is kept, where it is the one of this place and its next read is at this offset.
fn file_at<F: Drop>(kept: Option<KeptFile<F>>, place: usize, from: u64) -> Option<F>
    ensures { result ≡ file_at kept place from }
{
    let kept = kept?;
    if kept.place == place && kept.next == from {
        Some(kept.file)
    } else {
        None
    }
}

/// A file of which so many bytes were read at an offset, to be read on where its place is below
/// `apart`.
fn keep<F: Drop>(
    file: F,
    apart: usize,
    place: usize,
    from: u64,
    count: usize,
) -> Option<KeptFile<F>>
    ensures same { IfSome result (λ kept. kept.file ≡ file) }
    ensures next { next_read result ≡ next_read_after apart place from count }
{
    if place >= apart {
        return None;
    }
    let next = from.checked_add(count as u64)?;
    Some(KeptFile { file, place, next })
}

/// Reads bytes from an offset on, in a file that has come there or else in one that is opened, and
/// answers the file with their count.
fn read_on<R: Files>(
    rt: &R,
    kept: Option<R::File>,
    name: &str,
    from: u64,
    into: &mut [u8],
) -> Option<(R::File, usize)>
    ensures bound { IfSome result (λ read. read.1 ≤ length into.new) }

    // A file that is read on loses just the bytes that it gives, and gives none only at its end.
    ensures bytes { IfSome kept (λ file. IfSome result (λ read.
        GaveFront (R.File.remaining file) (R.File.remaining read.0) read.1 into.new)) }
{
    let mut file = match kept {
        Some(file) => file,
        None => open_at(rt, name, from).ok()?,
    };
    let count = settle(read_once(&mut file, into), false)?;
    Some((file, count))
}

/// Opens a file, to be read from an offset on. At its start nothing is sought, since a pipe can't
/// seek.
fn open_at<R: Files>(rt: &R, name: &str, from: u64) -> io::Result<R::File> {
    let mut file = fs::open(rt, name)?;
    if from > 0 {
        file.seek(SeekFrom::Start(from))?;
    }
    Ok(file)
}
