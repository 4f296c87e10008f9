//! What stands after the wire.
ghost use Rattle.std.specs.Prelude.{◌≡◌, IfOk, IfSome, Some, None, is_some, true, false};
ghost use Rattle.dp_sentence.specs.Address.{formatter};
ghost use Rattle.dp_sentence.specs.Damage.{damage};
ghost use Rattle.dp_sentence.specs.Fields.{fields};
ghost use Rattle.dp_nav.specs.{IsReadingWithin, is_plain};
ghost use Rattle.dp_nav.specs.Plain.{plain_of};
ghost use Rattle.dp_nav.specs.Sensed.{sensed_of};
ghost use Rattle.dp_frame.specs.{IsContentWithin, content_by, content_of, kind_of};

use crate::Origin;
use crate::entry::Content;
use crate::settings::Settings;
use arrayvec::ArrayVec;
use dp_nav::{FIELDS_READ, Reading, Skip, WireKind, plain, sensed_first};
use dp_plant::{Place, Wire};
use dp_sentence::read_first;

/// What a line brings for its wire, by what stands after the wire.
#[tactic(auto, unfolding(crate::specs::Contents::content_of))]
pub(crate) fn content(settings: &Settings, wire: Wire, rest: &[u8]) -> Content
    ensures value { result ≡ content_of settings.now wire rest.now }
    ensures within { IsContentWithin result }
{
    match said(kind_of(wire), rest) {
        Some(said) => content_by(&settings.origin, said),
        None => Content::Damaged,
    }
}

/// What a plain form or a sentence says; nothing where it is neither.
fn said(kind: WireKind, rest: &[u8]) -> Option<Result<Reading, Skip>>
    ensures plain { is_plain rest.now ≡ true → result ≡ Some (plain_of kind rest.now) }
    ensures sentence { is_plain rest.now ≡ false → is_some (damage rest.now) ≡ false
        → result ≡ Some (sensed_of kind (formatter rest.now) (fields rest.now)) }
    ensures damaged { is_plain rest.now ≡ false → is_some (damage rest.now) ≡ true
        → result ≡ None }
    ensures within { IfSome result (λ said. IfOk said IsReadingWithin) }
{
    if is_plain(rest) {
        return Some(plain(kind, rest));
    }
    let mut fields: ArrayVec<&[u8], FIELDS_READ> = ArrayVec::new();
    match read_first(rest, &mut fields) {
        Ok(address) => Some(sensed_first(kind, address.formatter, fields.as_slice())),
        Err(_) => None,
    }
}

fn kind_of(wire: Wire) -> WireKind
    ensures { result ≡ kind_of wire }
{
    match wire {
        Wire::Pos(_) => WireKind::Position,
        Wire::Gyro(_) => WireKind::Gyro,
        Wire::Wind(_) => WireKind::Wind,
        Wire::Group(_) => WireKind::Group,
    }
}

/// Whether a text begins as a plain form does.
fn is_plain(rest: &[u8]) -> bool
    ensures { result ≡ is_plain rest.now }
{
    match rest {
        [letter, ..] => *letter == b'L' || *letter == b'G',
        [] => false,
    }
}

/// What a reading brings, in the local frame round an origin.
fn content_by(origin: &Origin, said: Result<Reading, Skip>) -> Content
    requires { IfOk said IsReadingWithin }
    ensures value { result ≡ content_by origin.now said }
    ensures within { IsContentWithin result }
{
    match said {
        Ok(Reading::Fix { lat, lon }) => match origin.local(lat, lon) {
            Some(place) => Content::At(place),
            None => Content::Skipped,
        },
        Ok(Reading::Local { north, east }) => Content::At(Place { north, east }),
        Ok(Reading::Heading(heading)) => Content::Heading(heading),
        Ok(Reading::Wind(gust)) => Content::Wind(gust),
        Ok(Reading::Group(ready)) => Content::Ready(ready),
        Err(_) => Content::Skipped,
    }
}
