//! What a sentence says on a wire.
ghost use Rattle.std.specs.Prelude.{◌≡◌, ℕ, IfOk, List, map, take};
ghost use Rattle.dp_text.specs.{texts_of};
ghost use Rattle.dp_nav.specs.{IsReadingWithin, sensed_of};

use crate::{Reading, Skip, WireKind, gga, hdt, mwv, ths};
use dp_sentence::Sentence;

/// How many data fields of a sentence are read at most: no formatter has a later one that says something here.
pub const FIELDS_READ: usize = 6;

/// The reading of a sentence of IEC 61162-1 on a wire of this kind.
///
/// A formatter that isn't read on this kind of wire is [`Skip::OtherFormatter`], whatever its fields are. Else the fields are checked in
/// their formatter's order, and the first check that fails gives [`Skip::NotValid`], or [`Skip::BadField`] with the field's number.
/// The ranges of what it gives are those of [`Reading`].
pub fn sensed(kind: WireKind, s: &Sentence) -> Result<Reading, Skip>
    ensures value { result
        ≡ sensed_of kind s.now.formatter.now (map (λ field. field.now) s.now.fields.items) }
    ensures within { IfOk result IsReadingWithin }
{
    sensed_by(kind, s.formatter, s.fields.as_slice())
}

/// The same, of a sentence's formatter and its first [`FIELDS_READ`] data fields, or all where there are fewer.
pub fn sensed_first(kind: WireKind, formatter: &[u8], fields: &[&[u8]]) -> Result<Reading, Skip>
    ensures value { (all : List (List ℕ)) → texts_of fields.now ≡ take 6 all
        → result ≡ sensed_of kind formatter.now all }
    ensures within { IfOk result IsReadingWithin }
{
    sensed_by(kind, formatter, fields)
}

#[tactic(auto, unfolding(crate::specs::Sensed::sensed_of))]
fn sensed_by(kind: WireKind, formatter: &[u8], fields: &[&[u8]]) -> Result<Reading, Skip>
    ensures value { result ≡ sensed_of kind formatter.now (texts_of fields.now) }
    ensures within { IfOk result IsReadingWithin }
{
    match kind {
        WireKind::Position if formatter == b"GGA".as_slice() => gga::fix(fields),
        WireKind::Gyro if formatter == b"HDT".as_slice() => hdt::heading(fields),
        WireKind::Gyro if formatter == b"THS".as_slice() => ths::heading(fields),
        WireKind::Wind if formatter == b"MWV".as_slice() => mwv::gust(fields),
        _ => Err(Skip::OtherFormatter),
    }
}
