//! The checksum field at the end of a line.
ghost use Rattle.std.specs.Prelude.{◌≡◌, ◌<◌, ◌≤◌, length, IsTrue};
ghost use Rattle.std.specs.Char.{is_ascii_hexdigit, digit_value};
ghost use Rattle.dp_sentence.specs.{has_checksum_field, said};

/// Whether a line ends with `*` and two hexadecimal digits, after one byte at least.
#[tactic(auto, unfolding(crate::specs::Checksum::has_checksum_field))]
pub(crate) fn has_checksum_field(line: &[u8]) -> bool
    ensures value { result ≡ has_checksum_field line.now }
    ensures long { IsTrue result → 4 ≤ length line.now }
{
    let n = line.len();
    n >= 4
        && line[n - 3] == b'*'
        && line[n - 2].is_ascii_hexdigit()
        && line[n - 1].is_ascii_hexdigit()
}

/// The value of a hexadecimal digit of either case.
fn digit_value(digit: u8) -> u8
    requires { IsTrue (is_ascii_hexdigit digit) }
    ensures value { result ≡ digit_value digit }
    ensures small { result < 16 }
{
    match digit {
        b'0'..=b'9' => digit - b'0',
        b'A'..=b'F' => digit - b'A' + 10,
        _ => digit - b'a' + 10,
    }
}

/// The number that the two digits at the end of a line say.
#[tactic(auto, unfolding(crate::specs::Checksum::said, crate::specs::Checksum::has_checksum_field))]
pub(crate) fn said(line: &[u8]) -> u8
    requires { IsTrue (has_checksum_field line.now) }
    ensures { result ≡ said line.now }
{
    let n = line.len();
    digit_value(line[n - 2]) * 16 + digit_value(line[n - 1])
}
