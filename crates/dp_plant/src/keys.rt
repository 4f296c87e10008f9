ghost use Rattle.std.specs.Prelude.{
  IfOk,
  IfSome,
  is_some,
  length,
  map,
  option_map,
  pos,
  ℤ,
  ◌+◌,
  ◌∷◌,
  ◌<◌,
  ◌≡◌,
  ◌≤ℤ◌,
  ◌≤◌,
};
ghost use Rattle.std.specs.List.{list_all};
ghost use Rattle.toml.specs.Data.{as_integer, as_table};
ghost use Rattle.toml.specs.View.{items_view, view};
ghost use Rattle.dp_plant.specs.Keys as Keys;
ghost use Rattle.dp_plant.specs.Keys.{rows};
ghost use Rattle.dp_plant.specs.{AreBetween, Gives, all_some, entry, in_section, seen, square_row, square_rows, tables, wholes};

use crate::{Key, PlantFault};
use arrayvec::ArrayVec;
use dp_form::{Square, Squares};
use toml::Value;

/// What stands at a name in a table; nothing does where there is no table.
pub(crate) fn field<'a>(holder: Option<&'a Value>, name: &str) -> Option<&'a Value>
    ensures { seen result ≡ Keys.field (seen holder.entry) name.now }
{
    match holder {
        Some(value) => value.get(name),
        None => None,
    }
}

/// The name of the table with this index of an array of tables.
pub(crate) fn section_of(name: &str, index: usize) -> Key
    requires name { length name.now ≤ 20 }
    requires index { index < 100 }
    ensures name { result.bytes ≡ Keys.section_at name.now index }
    ensures short { length result.bytes ≤ length name.now + 3 }
{
    let mut key = Key::new();
    key.push_str(name);
    key.push('.');
    if index < 10 {
        key.push(char::from(b'0' + index as u8));
        return key;
    }
    key.push(char::from(b'0' + (index / 10) as u8));
    key.push(char::from(b'0' + (index % 10) as u8));
    key
}

/// The name of a key of a section.
pub(crate) fn key_of(section: &str, name: &str) -> Key
    requires { length section.now + length name.now < 48 }
    ensures { result.bytes ≡ Keys.key_in section.now name.now }
{
    let mut key = Key::new();
    key.push_str(section);
    key.push('.');
    key.push_str(name);
    key
}

/// The whole number at a key.
#[tactic(auto, unfolding(crate::specs::Keys::number_at))]
pub(crate) fn number_at(
    holder: Option<&Value>,
    section: &str,
    name: &str,
) -> Result<i64, PlantFault>
    requires { length section.now + length name.now < 48 }
    ensures { Gives (λ z. z) result (Keys.number_at (in_section section.now holder.entry) name.now) }
{
    let value = match field(holder, name) {
        Some(value) => value,
        None => {
            return Err(PlantFault::Missing {
                key: key_of(section, name),
            });
        }
    };
    match value.as_integer() {
        Some(number) => Ok(number),
        None => Err(PlantFault::Kind {
            key: key_of(section, name),
        }),
    }
}

/// The whole number at a key, within its range.
#[tactic(auto, unfolding(crate::specs::Keys::whole_at))]
pub(crate) fn whole_at(
    holder: Option<&Value>,
    section: &str,
    name: &str,
    low: i64,
    high: i64,
) -> Result<i64, PlantFault>
    requires { length section.now + length name.now < 48 }
    ensures exact { Gives (λ z. z) result
        (Keys.whole_at (in_section section.now holder.entry) name.now (low, high)) }
    ensures within { IfOk result (λ z. (low ≤ℤ z) × (z ≤ℤ high)) }
{
    let number = number_at(holder, section, name)?;
    if number < low || number > high {
        return Err(PlantFault::Range {
            key: key_of(section, name),
        });
    }
    Ok(number)
}

/// The whole number at a key, within its range from 0 up.
#[tactic(auto, unfolding(crate::specs::Keys::count_at))]
pub(crate) fn count_at(
    holder: Option<&Value>,
    section: &str,
    name: &str,
    low: u32,
    high: u32,
) -> Result<u32, PlantFault>
    requires { length section.now + length name.now < 48 }
    ensures exact { Gives (λ n. n) result
        (Keys.count_at (in_section section.now holder.entry) name.now (pos low, pos high)) }
    ensures within { IfOk result (λ n. (low ≤ n) × (n ≤ high)) }
{
    let number = whole_at(holder, section, name, i64::from(low), i64::from(high))?;
    Ok(number as u32)
}

fn integers<const N: usize>(items: &[Value]) -> Option<[i64; N]>
    requires { length items.now ≡ N }
    ensures { result ≡ all_some as_integer (items_view items.now) }
{
    let mut numbers = [0; N];
    for (i, item) in items.iter().enumerate() {
        numbers[i] = match item.as_integer() {
            Some(number) => number,
            None => return None,
        };
    }
    Some(numbers)
}

/// The whole numbers of an array of N.
#[tactic(auto, unfolding(crate::specs::Keys::listed), using(crate::proofs::Items::counts))]
fn wholes_of<const N: usize>(value: &Value) -> Option<[i64; N]>
    ensures { result ≡ wholes N (view value.now) }
{
    match value.as_array() {
        Some(array) if array.len() == N => integers(array.as_slice()),
        _ => None,
    }
}

/// The N whole numbers at a key.
#[tactic(auto, unfolding(crate::specs::Keys::numbers_at))]
pub(crate) fn numbers_at<const N: usize>(
    holder: Option<&Value>,
    section: &str,
    name: &str,
) -> Result<[i64; N], PlantFault>
    requires { length section.now + length name.now < 48 }
    ensures { Gives (λ zs. zs) result
        (Keys.numbers_at (in_section section.now holder.entry) name.now N) }
{
    let value = match field(holder, name) {
        Some(value) => value,
        None => {
            return Err(PlantFault::Missing {
                key: key_of(section, name),
            });
        }
    };
    match wholes_of(value) {
        Some(numbers) => Ok(numbers),
        None => Err(PlantFault::Kind {
            key: key_of(section, name),
        }),
    }
}

fn are_within<const N: usize>(bounds: &[(i64, i64); N], numbers: &[i64; N]) -> bool
    ensures value { result ≡ Keys.are_within bounds.now numbers.now }
    ensures wide { (length bounds.now ≡ N) × (length numbers.now ≡ N) }
{
    bounds
        .iter()
        .zip(numbers.iter())
        .all(|(bound, number)| bound.0 <= *number && *number <= bound.1)
}

/// The whole numbers at a key, each within its bounds.
#[tactic(auto, unfolding(crate::specs::Keys::wholes_at), using(crate::proofs::Between::all_between))]
pub(crate) fn wholes_at<const N: usize>(
    holder: Option<&Value>,
    section: &str,
    name: &str,
    bounds: &[(i64, i64); N],
) -> Result<[i64; N], PlantFault>
    requires { length section.now + length name.now < 48 }
    ensures exact { Gives (λ zs. zs) result
        (Keys.wholes_at (in_section section.now holder.entry) name.now bounds.now) }
    ensures within { IfOk result (λ zs. AreBetween bounds.now (entry zs)) }
{
    let numbers: [i64; N] = numbers_at(holder, section, name)?;
    if !are_within(bounds, &numbers) {
        return Err(PlantFault::Range {
            key: key_of(section, name),
        });
    }
    Ok(numbers)
}

fn rows_in<const N: usize, const CAP: usize>(items: &[Value]) -> Option<ArrayVec<[i64; N], CAP>>
    requires { length items.now ≤ CAP }
    ensures value { option_map (λ v. v.items) result ≡ all_some (wholes N) (items_view items.now) }
    ensures long { IfSome result (λ v. length v.items ≡ length items.now) }
{
    let mut rows = ArrayVec::new();
    for item in items {
        match wholes_of(item) {
            Some(row) => rows.push(row),
            None => return None,
        }
    }
    Some(rows)
}

#[tactic(auto, unfolding(crate::specs::Keys::listed), using(crate::proofs::Items::counts))]
fn rows_of<const N: usize, const CAP: usize>(
    value: &Value,
    count: usize,
) -> Option<ArrayVec<[i64; N], CAP>>
    requires { count ≤ CAP }
    ensures value { option_map (λ v. v.items) result ≡ rows N count count (view value.now) }
    ensures long { IfSome result (λ v. length v.items ≡ count) }
{
    match value.as_array() {
        Some(array) if array.len() == count => rows_in(array.as_slice()),
        _ => None,
    }
}

fn rows_are_within<const N: usize>(bounds: &[(i64, i64); N], rows: &[[i64; N]]) -> bool
    ensures { result ≡ list_all (Keys.are_within bounds.now) rows.now }
{
    rows.iter().all(
        |row| -> bool
            ensures { result ≡ Keys.are_within bounds.entry.now row.now }
        { are_within(bounds, row) },
    )
}

/// So many rows of whole numbers at a key, each number within the bounds of its place.
#[tactic(auto, unfolding(crate::specs::Keys::rows_at))]
pub(crate) fn rows_at<const N: usize, const CAP: usize>(
    holder: Option<&Value>,
    section: &str,
    name: &str,
    count: usize,
    bounds: &[(i64, i64); N],
) -> Result<ArrayVec<[i64; N], CAP>, PlantFault>
    requires key { length section.now + length name.now < 48 }
    requires room { count ≤ CAP }
    ensures exact { Gives (λ v. v.items) result
        (Keys.rows_at (in_section section.now holder.entry) name.now count bounds.now) }
    ensures long { IfOk result (λ v. length v.items ≡ count) }
{
    let value = match field(holder, name) {
        Some(value) => value,
        None => {
            return Err(PlantFault::Missing {
                key: key_of(section, name),
            });
        }
    };
    let rows: ArrayVec<[i64; N], CAP> = match rows_of(value, count) {
        Some(rows) => rows,
        None => {
            return Err(PlantFault::Kind {
                key: key_of(section, name),
            });
        }
    };
    if !rows_are_within(bounds, rows.as_slice()) {
        return Err(PlantFault::Range {
            key: key_of(section, name),
        });
    }
    Ok(rows)
}

fn square_in<const N: usize>(first: &Value, rest: &[Value]) -> Option<Square<N>>
    requires { length rest.now ≡ N }
    ensures { option_map square_row result ≡ all_some as_integer (items_view (first.now ∷ rest.now)) }
{
    let d = match first.as_integer() {
        Some(d) => d,
        None => return None,
    };
    match integers(rest) {
        Some(l) => Some(Square { d, l }),
        None => None,
    }
}

/// A square over N coordinates: its weight and its N numbers, in one row.
#[tactic(auto, unfolding(crate::specs::Keys::listed), using(crate::proofs::Items::counts))]
fn square_of<const N: usize>(value: &Value) -> Option<Square<N>>
    ensures { option_map square_row result ≡ wholes (N + 1) (view value.now) }
{
    match value.as_array() {
        Some(array) => match array.as_slice().split_first() {
            Some((first, rest)) if rest.len() == N => square_in(first, rest),
            _ => None,
        },
        None => None,
    }
}

fn squares_in<const N: usize>(items: &[Value]) -> Option<Squares<N>>
    requires { length items.now ≤ 8 }
    ensures { option_map square_rows result ≡ all_some (wholes (N + 1)) (items_view items.now) }
{
    let mut list = ArrayVec::new();
    for item in items {
        match square_of(item) {
            Some(square) => list.push(square),
            None => return None,
        }
    }
    Some(Squares { list })
}

#[tactic(auto, unfolding(crate::specs::Keys::listed), using(crate::proofs::Items::counts))]
fn squares_of<const N: usize>(value: &Value) -> Option<Squares<N>>
    ensures { option_map square_rows result ≡ rows (N + 1) 0 8 (view value.now) }
{
    match value.as_array() {
        Some(array) if array.len() <= 8 => squares_in(array.as_slice()),
        _ => None,
    }
}

/// The list of at most 8 squares at a key.
#[tactic(auto, unfolding(crate::specs::Keys::squares_at))]
pub(crate) fn squares_at<const N: usize>(
    holder: Option<&Value>,
    section: &str,
    name: &str,
) -> Result<Squares<N>, PlantFault>
    requires { length section.now + length name.now < 48 }
    ensures { Gives square_rows result
        (Keys.squares_at N (in_section section.now holder.entry) name.now) }
{
    let value = match field(holder, name) {
        Some(value) => value,
        None => {
            return Err(PlantFault::Missing {
                key: key_of(section, name),
            });
        }
    };
    match squares_of(value) {
        Some(squares) => Ok(squares),
        None => Err(PlantFault::Kind {
            key: key_of(section, name),
        }),
    }
}

fn are_tables(items: &[Value]) -> bool
    ensures { result ≡ list_all (λ v. is_some (as_table (view v))) items.now }
{
    items.iter().all(|item| item.is_table())
}

#[tactic(auto, unfolding(crate::specs::Keys::listed), using(crate::proofs::Items::counts, crate::proofs::Items::table_sets))]
fn tables_of(value: &Value, least: usize, most: usize) -> Option<&[Value]>
    ensures exact { option_map (λ a. map view a.now) result ≡ tables least most (view value.now) }
    ensures within { IfSome result (λ a. (least ≤ length a.now) × (length a.now ≤ most)) }
{
    match value.as_array() {
        Some(array)
            if least <= array.len() && array.len() <= most && are_tables(array.as_slice()) => {
            Some(array.as_slice())
        }
        _ => None,
    }
}

/// The tables at a key of the document.
#[tactic(auto, unfolding(crate::specs::Keys::tables_at))]
pub(crate) fn tables_at<'a>(
    document: Option<&'a Value>,
    name: &str,
    least: usize,
    most: usize,
) -> Result<&'a [Value], PlantFault>
    requires { length name.now ≤ 48 }
    ensures exact { Gives (λ a. map view a.now) result
        (Keys.tables_at (seen document.entry) name.now least most) }
    ensures within { IfOk result (λ a. (least ≤ length a.now) × (length a.now ≤ most)) }
{
    let value = match field(document, name) {
        Some(value) => value,
        None => {
            return Err(PlantFault::Missing {
                key: whole_key(name),
            });
        }
    };
    match tables_of(value, least, most) {
        Some(tables) => Ok(tables),
        None => Err(PlantFault::Kind {
            key: whole_key(name),
        }),
    }
}

/// The key of a name alone.
pub(crate) fn whole_key(name: &str) -> Key
    requires { length name.now ≤ 48 }
    ensures { result.bytes ≡ name.now }
{
    let mut key = Key::new();
    key.push_str(name);
    key
}
