//! What reading and writing have to do with each other: each law is the contract of a function that does nothing. The definitions are in
//! `specs/Laws`.
ghost use Rattle.dp_codec.specs.{AreMarks, ReadIsWritten, SecondIsUnknownToFirst, SpellingsKeepApart, WrittenIsRead};

use dp_machine::Machine;

/// A spelling begins with the characters DPS1 or DPS2.
pub fn marks()
    ensures { AreMarks }
{}

/// What is written in a version that the software knows is read by it, and is the state that was written.
pub fn written_is_read(m: &Machine)
    ensures { WrittenIsRead m.now.plant }
{
    m.inside_is_within();
}

/// What is read of bytes is a state that they spell: no state has two spellings of one version.
pub fn read_is_written()
    ensures { ReadIsWritten }
{}

/// States that differ have spellings that differ, in each version. So states that were read in spelling 1 may be compared in spelling 2.
pub fn spellings_keep_apart(m: &Machine)
    ensures { SpellingsKeepApart m.now.plant }
{
    m.inside_is_within();
}

/// Software 1 knows only spelling 1: what is written in spelling 2 is wrong at its first byte.
pub fn second_is_unknown_to_first()
    ensures { SecondIsUnknownToFirst }
{}
