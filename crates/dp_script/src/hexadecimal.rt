//! Bytes as hexadecimal text: two lower-case digits a byte, the upper four bits first.
ghost use Rattle.std.specs.Prelude.{◌≡◌, ◌<◌, ◌≤◌, IsTrue, length};
ghost use Rattle.std.specs.List.{list_all};
ghost use Rattle.dp_script.specs.{hexadecimal_of, is_lower_digit, paired};
ghost use Rattle.dp_script.specs.Hexadecimal as hexadecimal;

use crate::ScriptKind;
use arrayvec::ArrayVec;

/// The most bytes.
pub const MOST: usize = 64;

/// The bytes of hexadecimal text; none where there is no byte, more than 64, or half a byte.
#[tactic(auto, unfolding(crate::specs::Commands::hexadecimal_of))]
pub fn bytes_read(text: &[u8]) -> Result<Option<ArrayVec<u8, MOST>>, ScriptKind>
    ensures { result ≡ hexadecimal_of text.now }
{
    if !are_digits(text) {
        return Err(ScriptKind::Number);
    }
    if text.len() < 2 || text.len() > 2 * MOST || text.len() % 2 != 0 {
        return Ok(None);
    }
    Ok(Some(bytes_paired(text)))
}

/// Whether a text has digits alone.
fn are_digits(text: &[u8]) -> bool
    ensures { result ≡ list_all is_lower_digit text.now }
{
    text.iter().all(|c| is_lower_digit(*c))
}

fn is_lower_digit(c: u8) -> bool
    ensures { result ≡ hexadecimal.is_lower_digit c }
{
    matches!(c, b'0'..=b'9' | b'a'..=b'f')
}

/// The bytes of pairs of digits.
fn bytes_paired(digits: &[u8]) -> ArrayVec<u8, MOST>
    requires digits { IsTrue (list_all is_lower_digit digits.now) }
    requires few { length digits.now ≤ 128 }
    ensures { result.items ≡ paired digits.now }
{
    let mut bytes = ArrayVec::new();
    let mut rest = digits;
    while let [high, low, more @ ..] = rest {
        bytes.push(16 * digit_value(*high) + digit_value(*low));
        rest = more;
    }
    bytes
}

/// What a digit counts.
fn digit_value(c: u8) -> u8
    requires { IsTrue (hexadecimal.is_lower_digit c) }
    ensures value { result ≡ hexadecimal.digit_value c }
    ensures bound { result < 16 }
{
    if c <= b'9' { c - b'0' } else { c - b'a' + 10 }
}
