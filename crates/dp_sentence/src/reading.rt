//! Reading one line as a sentence.
ghost use Rattle.std.specs.Prelude.{◌≡◌, ◌+◌, ◌↔◌, [], drop, length, map, position, slice_index_or, take, IsOk, IfOk, IsTrue, Some};
ghost use Rattle.std.specs.List.{list_any};
ghost use Rattle.std.specs.Option.{option_or};
ghost use Rattle.std.specs.Result.{result_err};
ghost use Rattle.dp_sentence.specs.Damage.{bad_byte, starts};
ghost use Rattle.dp_sentence.specs.declared.Damage.TheVariants.{NoSum};
ghost use Rattle.dp_sentence.specs.{IsDamagedBy, IsSentence, StandsInOrder, body, damage, damage_but_fields, fields, formatter, formatter_of, has_checksum_field, is_bad, parts, talker, talker_of, too_many_fields};

use crate::address::talker_and_formatter;
use crate::checksum::{has_checksum_field, said};
use crate::fields::split;
use crate::looking::look;
use crate::{AddressField, Damage, Sentence};
use arrayvec::ArrayVec;

const MAX_LENGTH: usize = 160;

const MAX_FIELDS: u8 = 24;

/// Reads a line, without its end, as a sentence. The parts are slices of the line.
///
/// Where the line is no sentence, the damage is the first of these:
///
/// 1. [`Damage::TooLong`]: more than 160 bytes;
/// 2. [`Damage::NoStart`]: no byte, or the first is not `$`;
/// 3. [`Damage::BadByte`]: a byte outside 32 to 126, of which the first is named;
/// 4. [`Damage::NoSum`]: fewer than 4 bytes, or the last three are not `*` and two hexadecimal digits of either case;
/// 5. [`Damage::BadSum`]: the two digits are not the exclusive-or of the bytes between `$` and `*`;
/// 6. [`Damage::TooManyFields`]: more than 24 commas between `$` and `*`.
pub fn read<'a>(line: &'a [u8]) -> Result<Sentence<'a>, Damage>
    ensures sentence { IsOk result ↔ IsSentence line.now }
    ensures reason { (d : Damage) → (result ≡ Err d) ↔ IsDamagedBy line.now d }
    ensures first_damage { result_err result ≡ damage line.now }

    ensures talker { IfOk result (λ s. s.talker.now ≡ talker line.now) }
    ensures formatter { IfOk result (λ s. s.formatter.now ≡ formatter line.now) }
    ensures fields { IfOk result (λ s. map (λ field. field.now) s.fields.items ≡ fields line.now) }
    ensures in_order { IfOk result
        (λ s. StandsInOrder line.now s.talker.now s.formatter.now
        (map (λ field. field.now) s.fields.items)) }
{
    let mut fields: ArrayVec<&'a [u8], 24> = ArrayVec::new();
    let address = read_first(line, &mut fields)?;
    Ok(Sentence {
        talker: address.talker,
        formatter: address.formatter,
        fields,
    })
}

/// Reads a line, without its end, as a sentence, and keeps its first data fields, as many as there is room for, as slices of the line.
///
/// For a line that is no sentence it gives what [`read`] does.
pub fn read_first<'a, const N: usize>(
    line: &'a [u8],
    into: &mut ArrayVec<&'a [u8], N>,
) -> Result<AddressField<'a>, Damage>
    requires { into.old.items ≡ [] }
    ensures first_damage { result_err result ≡ damage line.now }
    ensures talker { IfOk result (λ a. a.talker.now ≡ talker line.now) }
    ensures formatter { IfOk result (λ a. a.formatter.now ≡ formatter line.now) }
    ensures fields { IsOk result
        → map (λ field. field.now) into.new.items ≡ take N (fields line.now) }
{
    let body = checked_body(line)?;
    address_of(body, into)
}

/// The body of a line, and how many commas stand in it.
#[derive(Clone, Copy)]
struct Body<'a> {
    bytes: &'a [u8],
    commas: u8,
}

/// The body of a line whose structure and checksum are right.
#[tactic(auto, unfolding(crate::specs::Damage::damage_but_fields, crate::specs::Fields::body))]
fn checked_body(line: &[u8]) -> Result<Body<'_>, Damage>
    ensures body { IfOk result (λ b. b.bytes.now ≡ body line.now) }
    ensures commas { IfOk result (λ b. length (parts b.bytes.now) ≡ b.commas + 1) }
    ensures damage { result_err result ≡ damage_but_fields line.now }
{
    if line.len() > MAX_LENGTH {
        return Err(Damage::TooLong { length: line.len() });
    }
    if line.is_empty() || line[0] != b'$' {
        return Err(Damage::NoStart);
    }
    if !has_checksum_field(line) {
        return Err(damage_without_sum(line));
    }
    let body = &line[1..line.len() - 3];
    let found = look(body);
    if let Some(place) = bad_place_where(line, found.bad) {
        return Err(Damage::BadByte { place });
    }
    let said = said(line);
    let sum = found.sum;
    if said != sum {
        return Err(Damage::BadSum { said, found: sum });
    }
    Ok(Body {
        bytes: body,
        commas: found.commas,
    })
}

/// What is wrong with a line that starts right and has no checksum field.
fn damage_without_sum(line: &[u8]) -> Damage
    ensures { Some result ≡ option_or (bad_byte (position is_bad line.now)) (Some NoSum) }
{
    match bad_place(line) {
        Some(place) => Damage::BadByte { place },
        None => Damage::NoSum,
    }
}

/// The first place of a byte outside 32 to 126, in a line that starts right and has a checksum field, by whether its body has such a byte.
fn bad_place_where(line: &[u8], bad: bool) -> Option<usize>
    requires start { IsTrue (starts line.now) }
    requires field { IsTrue (has_checksum_field line.now) }
    requires bad { bad ≡ list_any is_bad (body line.now) }
    ensures { result ≡ position is_bad line.now }
{
    if bad { bad_place(line) } else { None }
}

/// The first place of a byte outside 32 to 126.
fn bad_place(line: &[u8]) -> Option<usize>
    ensures { result ≡ position is_bad line.now }
{
    line.iter().position(|byte| *byte < 32 || *byte > 126)
}

/// The address of a body, whose first data fields are kept, as many as there is room for.
fn address_of<'a, const N: usize>(
    body: Body<'a>,
    into: &mut ArrayVec<&'a [u8], N>,
) -> Result<AddressField<'a>, Damage>
    requires commas { length (parts body.bytes.now) ≡ body.commas + 1 }
    requires empty { into.old.items ≡ [] }
    ensures talker { IfOk result
        (λ a. a.talker.now ≡ talker_of (slice_index_or (parts body.entry.bytes.now) 0 [])) }
    ensures formatter { IfOk result
        (λ a. a.formatter.now ≡ formatter_of (slice_index_or (parts body.entry.bytes.now) 0 [])) }
    ensures fields { IsOk result
        → map (λ field. field.now) into.new.items ≡ take N (drop 1 (parts body.entry.bytes.now)) }
    ensures damage { result_err result ≡ too_many_fields (drop 1 (parts body.entry.bytes.now)) }
{
    if body.commas > MAX_FIELDS {
        return Err(Damage::TooManyFields);
    }
    let address = split(body.bytes, body.commas, into);
    let (talker, formatter) = talker_and_formatter(address);
    Ok(AddressField { talker, formatter })
}
