//! The limits of a guide, in the plant file.
ghost use Rattle.std.specs.Prelude.{IfOk, IsErrAnd, IsSome, IsUtf8, Ok, Some, codes, length, ◌+◌, ◌<◌, ◌≡◌};
ghost use Rattle.toml.specs.Data.{Members, as_integer, table};
ghost use Rattle.toml.specs.Parse.{parse_document};
ghost use Rattle.toml.specs.View.{items_view, view};
ghost use Rattle.dp_plant.specs.Keys as Keys;
ghost use Rattle.dp_plant.specs.{AreBetween, Gives, IsNoDocument, all_some, entry, in_section, seen, wholes};
ghost use Rattle.dp_guide.specs.Limits.{limit_ranges, limits_at};
ghost use Rattle.dp_guide.specs.Motion.{AreLimits};

use crate::motion::GuideLimits;
use dp_plant::{Key, PlantFault};
use std::alloc::Global;
use toml::Value;

/// A rate or an acceleration is from 1 to 2^31.
const LIMITS: [(i64, i64); 3] = [(1, 2_147_483_648), (1, 2_147_483_648), (1, 2_147_483_648)];

/// The limits of the guide in a plant file: `guide.rate` and then `guide.accel`, each of three whole numbers, for north, east and the
/// heading.
///
/// The first fault is the answer: for each key first Missing, then Kind, then Range. All other keys are ignored.
pub fn limits_of(alloc: Global, bytes: &[u8]) -> Result<GuideLimits, PlantFault>
    ensures document { (ms : Members) → IsUtf8 bytes.now → parse_document bytes.now ≡ Some ms
        → Gives (λ l. l) result (limits_at (Some (table ms))) }
    ensures no_document { ¬ (IsUtf8 bytes.now × IsSome (parse_document bytes.now)) → IsErrAnd result IsNoDocument }
    ensures within { IfOk result AreLimits }
{
    let document = document_of(alloc, bytes)?;
    limits_in(Some(&document))
}

/// What the bytes are as a document.
fn document_of(alloc: Global, bytes: &[u8]) -> Result<Value, PlantFault>
    ensures document { (ms : Members) → IsUtf8 bytes.now → parse_document bytes.now ≡ Some ms
        → Gives view result (Ok (table ms)) }
    ensures no_document { ¬ (IsUtf8 bytes.now × IsSome (parse_document bytes.now)) → IsErrAnd result IsNoDocument }
{
    match toml::table_from_slice(alloc, bytes) {
        Ok(table) => Ok(Value::Table(table)),
        Err(error) if error.is_memory() => Err(PlantFault::Memory),
        Err(_) => Err(PlantFault::Toml),
    }
}

/// The limits in a document.
#[tactic(auto, unfolding(crate::specs::Limits::limits_at))]
fn limits_in(document: Option<&Value>) -> Result<GuideLimits, PlantFault>
    ensures exact { Gives (λ l. l) result (limits_at (seen document.entry)) }
    ensures within { IfOk result AreLimits }
{
    let guide = field(document, "guide");
    let rate = wholes_at(guide, "guide", "rate", &LIMITS)?;
    let accel = wholes_at(guide, "guide", "accel", &LIMITS)?;
    Ok(GuideLimits { rate, accel })
}

/// What stands at a name in a table; nothing does where there is no table.
fn field<'a>(holder: Option<&'a Value>, name: &str) -> Option<&'a Value>
    ensures { seen result ≡ Keys.field (seen holder.entry) name.now }
{
    match holder {
        Some(value) => value.get(name),
        None => None,
    }
}

/// The name of a key of a section.
fn key_of(section: &str, name: &str) -> Key
    requires { length section.now + length name.now < 48 }
    ensures { result.bytes ≡ Keys.key_in section.now name.now }
{
    let mut key = Key::new();
    key.push_str(section);
    key.push('.');
    key.push_str(name);
    key
}

fn integers<const N: usize>(items: &[Value]) -> Option<[i64; N]>
    requires { length items.now ≡ N }
    ensures { result ≡ all_some as_integer (items_view items.now) }
{
    let mut numbers = [0; N];
    for (i, item) in items.iter().enumerate() {
        numbers[i] = match item.as_integer() {
            Some(number) => number,
            None => return None,
        };
    }
    Some(numbers)
}

/// The whole numbers of an array of N.
#[tactic(auto, unfolding(dp_plant::specs::Keys::listed), using(dp_plant::proofs::Items::counts))]
fn wholes_of<const N: usize>(value: &Value) -> Option<[i64; N]>
    ensures { result ≡ wholes N (view value.now) }
{
    match value.as_array() {
        Some(array) if array.len() == N => integers(array.as_slice()),
        _ => None,
    }
}

/// The N whole numbers at a key.
#[tactic(auto, unfolding(dp_plant::specs::Keys::numbers_at))]
fn numbers_at<const N: usize>(
    holder: Option<&Value>,
    section: &str,
    name: &str,
) -> Result<[i64; N], PlantFault>
    requires { length section.now + length name.now < 48 }
    ensures { Gives (λ zs. zs) result
        (Keys.numbers_at (in_section section.now holder.entry) name.now N) }
{
    let value = match field(holder, name) {
        Some(value) => value,
        None => {
            return Err(PlantFault::Missing {
                key: key_of(section, name),
            });
        }
    };
    match wholes_of(value) {
        Some(numbers) => Ok(numbers),
        None => Err(PlantFault::Kind {
            key: key_of(section, name),
        }),
    }
}

fn are_within<const N: usize>(bounds: &[(i64, i64); N], numbers: &[i64; N]) -> bool
    ensures value { result ≡ Keys.are_within bounds.now numbers.now }
    ensures wide { (length bounds.now ≡ N) × (length numbers.now ≡ N) }
{
    bounds
        .iter()
        .zip(numbers.iter())
        .all(|(bound, number)| bound.0 <= *number && *number <= bound.1)
}

/// The whole numbers at a key, each within its bounds.
#[tactic(auto, unfolding(dp_plant::specs::Keys::wholes_at), using(dp_plant::proofs::Between::all_between))]
fn wholes_at<const N: usize>(
    holder: Option<&Value>,
    section: &str,
    name: &str,
    bounds: &[(i64, i64); N],
) -> Result<[i64; N], PlantFault>
    requires { length section.now + length name.now < 48 }
    ensures exact { Gives (λ zs. zs) result
        (Keys.wholes_at (in_section section.now holder.entry) name.now bounds.now) }
    ensures within { IfOk result (λ zs. AreBetween bounds.now (entry zs)) }
{
    let numbers: [i64; N] = numbers_at(holder, section, name)?;
    if !are_within(bounds, &numbers) {
        return Err(PlantFault::Range {
            key: key_of(section, name),
        });
    }
    Ok(numbers)
}
