//! Plain forms: `L NORTH EAST`, a place in the local frame, and `G 1` or `G 0`, the state of a thruster group.
ghost use Rattle.std.specs.Prelude.{◌≡◌, ◌∷◌, ◌≤◌, ◌<◌, length, IfOk, IfSome, IsTrue, unsigned_abs};
ghost use Rattle.dp_text.specs.{parts_of};
ghost use Rattle.dp_nav.specs.{IsReadingWithin, group_of, is_plain, local_of, nanometres_of, parts_behind, parts_in, plain_of};

use crate::{Reading, Skip, WireKind};
use dp_text::{cut, number};

/// The farthest millimetre of a place, per coordinate.
const FARTHEST_MM: u64 = 8_796_093;

/// Nanometres of a millimetre.
const NANOMETRES: i64 = 1_000_000;

/// The reading of a plain form, a text that begins with `L` or `G`, on a wire of this kind.
///
/// `L NORTH EAST` on a position wire is [`Reading::Local`], `G 1` and `G 0` on the wire of a group are [`Reading::Group`]. Either on another
/// kind of wire is [`Skip::OtherFormatter`], whatever follows the letter. Else [`Skip::BadField`] names the first part that is wrong: 1 where
/// `L` is followed by another byte than a space, 1 or 2 where NORTH or EAST is missing, no number of 1 to 18 digits with an optional `-`, or
/// outside ±8796093 mm, 3 where more follows; and 1 for anything else after `G`.
#[tactic(auto, unfolding(crate::specs::Plain::plain_of))]
pub fn plain(kind: WireKind, rest: &[u8]) -> Result<Reading, Skip>
    requires { IsTrue (is_plain rest.now) }
    ensures value { result ≡ plain_of kind rest.now }
    ensures within { IfOk result IsReadingWithin }
{
    match (kind, rest) {
        (WireKind::Position, [b'L', after @ ..]) => local(after),
        (WireKind::Group, [b'G', ..]) => group(rest),
        _ => Err(Skip::OtherFormatter),
    }
}

/// The place of what follows `L`.
#[tactic(auto, unfolding(crate::specs::Plain::local_of))]
fn local(after: &[u8]) -> Result<Reading, Skip>
    ensures value { result ≡ local_of (parts_behind after.now) }
    ensures within { IfOk result IsReadingWithin }
{
    let text = behind_space(after).ok_or(Skip::BadField { index: 1 })?;
    let (part, text) = first_part(text);
    let north = nanometres(part).ok_or(Skip::BadField { index: 1 })?;
    let text = text.ok_or(Skip::BadField { index: 2 })?;
    let (part, text) = first_part(text);
    let east = nanometres(part).ok_or(Skip::BadField { index: 2 })?;
    if text.is_some() {
        return Err(Skip::BadField { index: 3 });
    }
    Ok(Reading::Local { north, east })
}

/// What follows a space, if it comes first.
fn behind_space(text: &[u8]) -> Option<&[u8]>
    ensures { parts_in result ≡ parts_behind text.now }
{
    match text {
        [b' ', rest @ ..] => Some(rest),
        _ => None,
    }
}

/// The first part of a text, and the text after the space that ends it, if there is one.
fn first_part(text: &[u8]) -> (&[u8], Option<&[u8]>)
    ensures parts { parts_of text.now ≡ result.0.now ∷ parts_in result.1 }
    ensures more { IfSome result.1 (λ rest. 0 < length (parts_of rest.now)) }
{
    match cut(text) {
        Some((part, rest)) => (part, Some(rest)),
        None => (text, None),
    }
}

/// Millimetres, at most 8796093 from zero, in nanometres.
fn nanometres(text: &[u8]) -> Option<i64>
    ensures value { result ≡ nanometres_of text.now }
    ensures bound { IfSome result (λ x. unsigned_abs x ≤ 8796093000000) }
{
    let mm = number(text)?;
    if mm.unsigned_abs() <= FARTHEST_MM {
        Some(mm * NANOMETRES)
    } else {
        None
    }
}

/// The state of a group.
fn group(text: &[u8]) -> Result<Reading, Skip>
    ensures value { result ≡ group_of text.now }
    ensures within { IfOk result IsReadingWithin }
{
    if text == b"G 1".as_slice() {
        Ok(Reading::Group(true))
    } else if text == b"G 0".as_slice() {
        Ok(Reading::Group(false))
    } else {
        Err(Skip::BadField { index: 1 })
    }
}
