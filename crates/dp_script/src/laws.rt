//! What holds of each line of a script: the function's contract is the law.
ghost use Rattle.dp_script.specs.{LineIsWritten};

/// A line that isn't skipped has no fault of its own exactly where it is written from an act in range: its cycle, its verb and its
/// arguments, joined by spaces, each number of one to 18 digits, bytes as two lower-case hexadecimal digits each.
pub fn line_is_written()
    ensures { LineIsWritten }
{}
