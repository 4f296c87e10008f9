//! Laws on sentences, each the contract of a function that does nothing.
ghost use Rattle.dp_sentence.specs.{OneByteChanged, WrittenBack};

/// The parts of a sentence, written as `$`, the address, the data fields after their commas, `*` and the two digits of the checksum,
/// are the same bytes as its line, but for the case of the digits.
pub fn written_back()
    ensures { WrittenBack }
{}

/// A sentence with any one byte of its body changed is no sentence, with the same two digits.
pub fn one_byte_changed()
    ensures { OneByteChanged }
{}
