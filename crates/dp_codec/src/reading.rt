//! Reading a state from left to right.
ghost use Rattle.std.specs.Prelude.{◌≡◌, ◌⊎◌, ◌≤◌, ℕ, pos, ◌≤ℤ◌, slice_index};
ghost use Rattle.dp_codec.specs.Format.{Gives, times_at};
ghost use Rattle.dp_codec.specs.Parts.{coordinates, demand_parts, demands_parts, inside_parts, is_inside, kept_parts, places, plane_parts, sample_parts, samples_parts, state_parts, wave_limit, wave_parts, waves_stand, yaw_parts};
ghost use Rattle.dp_codec.specs.Spelling.{IsSoftware, all_of, length_at};

use crate::numbers::{Left, i64_at, u8_at, u32_at, u64_at, within_at};
use arrayvec::ArrayVec;
use dp_machine::{Kept, Machine, State};
use dp_plant::{Place, PlaneState, YawState};

/// The limit of a plane's coordinate.
const COORDINATE: i64 = 1 << 56;

/// The limit of a sample's.
const SAMPLE: i64 = 1 << 43;

/// The greatest heading.
const LAST_PSI: i64 = 359_999_999_999;

/// The limits of the bias and the rate of yaw.
const YAW_BIAS: i64 = 1 << 38;

const YAW_RATE: i64 = 1 << 53;

/// The limits of a demand on surge or sway, and on yaw.
const FORCE: i64 = 1 << 31;

const TURN: i64 = 1 << 38;

/// One past the greatest count, and one past the greatest angle in hundredths of a degree.
const COUNTS: u64 = (1 << 20) + 1;

const ANGLES: u64 = 36000;

/// The mark of spelling 0, if there were one.
pub(crate) const MARK: u32 = 1_146_114_864;

fn places_of(bytes: &[u8], limit: i64) -> Result<(Place, &[u8]), Left>
    requires { pos 0 ≤ℤ limit }
    ensures { Gives (λ x. (x.0, x.1.now)) result ((places limit).read bytes.now) }
{
    let (north, rest) = within_at(bytes, limit)?;
    let (east, rest) = within_at(rest, limit)?;
    Ok((Place { north, east }, rest))
}

#[tactic(auto, unfolding(crate::specs::Parts::coordinates))]
fn coordinates_of(bytes: &[u8]) -> Result<(Place, &[u8]), Left>
    ensures { Gives (λ x. (x.0, x.1.now)) result (coordinates.read bytes.now) }
{
    places_of(bytes, COORDINATE)
}

#[tactic(auto, unfolding(crate::specs::Parts::wave_parts))]
fn wave_of(bytes: &[u8], stand: bool, limit: i64) -> Result<(Place, &[u8]), Left>
    requires { pos 0 ≤ℤ limit }
    ensures { Gives (λ x. (x.0, x.1.now)) result ((wave_parts stand limit).read bytes.now) }
{
    if stand {
        places_of(bytes, limit)
    } else {
        Ok((Place { north: 0, east: 0 }, bytes))
    }
}

#[tactic(auto, unfolding(crate::specs::Parts::plane_parts))]
fn plane_of(bytes: &[u8], stand: bool, limit: i64) -> Result<(PlaneState, &[u8]), Left>
    requires { pos 0 ≤ℤ limit }
    ensures { Gives (λ x. (x.0, x.1.now)) result ((plane_parts stand limit).read bytes.now) }
{
    let (eta, rest) = coordinates_of(bytes)?;
    let (beta, rest) = coordinates_of(rest)?;
    let (vel, rest) = coordinates_of(rest)?;
    let (wave_p, rest) = wave_of(rest, stand, limit)?;
    let (wave_q, rest) = wave_of(rest, stand, limit)?;
    Ok((
        PlaneState {
            eta,
            beta,
            vel,
            wave_p,
            wave_q,
        },
        rest,
    ))
}

/// Whether the wave states stand in a version of the spelling.
pub(crate) fn waves_stand(m: &Machine, version: u32) -> bool
    ensures { result ≡ waves_stand m.now.plant version }
{
    version == 2 || m.version() == 2
}

/// The limit of a wave state's coordinate.
fn wave_limit(m: &Machine) -> i64
    ensures value { result ≡ wave_limit m.now.plant }
    ensures low { pos 0 ≤ℤ result }
{
    if m.version() == 2 { COORDINATE } else { 0 }
}

/// A plane state that is in the certified set.
#[tactic(auto, unfolding(crate::specs::Parts::inside_parts))]
fn inside_of<'a>(m: &Machine, version: u32, bytes: &'a [u8]) -> Result<(PlaneState, &'a [u8]), Left>
    ensures { let format = inside_parts m.now.plant version in Gives (λ x. (x.0, x.1.now)) result
        (format.read bytes.now) }
{
    let left = Left { bytes: bytes.len() };
    let (plane, rest) = plane_of(bytes, waves_stand(m, version), wave_limit(m))?;
    if is_inside(m, &plane) {
        Ok((plane, rest))
    } else {
        Err(left)
    }
}

fn is_inside(m: &Machine, x: &PlaneState) -> bool
    ensures { result ≡ is_inside m.now.plant x.now }
{
    m.inside(x)
}

#[tactic(auto, unfolding(crate::specs::Parts::yaw_parts))]
fn yaw_of(bytes: &[u8]) -> Result<(YawState, &[u8]), Left>
    ensures { Gives (λ x. (x.0, x.1.now)) result (yaw_parts.read bytes.now) }
{
    let (psi, rest) = i64_at(bytes, 0, LAST_PSI)?;
    let (beta, rest) = within_at(rest, YAW_BIAS)?;
    let (rate, rest) = within_at(rest, YAW_RATE)?;
    Ok((YawState { psi, beta, rate }, rest))
}

#[tactic(auto, unfolding(crate::specs::Parts::sample_parts))]
fn sample_of(bytes: &[u8]) -> Result<(Place, &[u8]), Left>
    ensures { Gives (λ x. (x.0, x.1.now)) result (sample_parts.read bytes.now) }
{
    places_of(bytes, SAMPLE)
}

fn list_of(n: u8, bytes: &[u8]) -> Result<(ArrayVec<Place, 32>, &[u8]), Left>
    requires { n ≤ 32 }
    ensures { Gives (λ x. (x.0.items, x.1.now)) result (times_at sample_parts.read n bytes.now) }
{
    let mut list = ArrayVec::new();
    let mut rest = bytes;
    for _ in 0..n {
        let (place, after) = sample_of(rest)?;
        list.push(place);
        rest = after;
    }
    Ok((list, rest))
}

#[tactic(auto, unfolding(crate::specs::Parts::kept_parts))]
fn kept_of(bytes: &[u8], count: u64, window: u8) -> Result<(Kept, &[u8]), Left>
    requires { window ≤ 32 }
    ensures { Gives (λ x. (x.0, x.1.now)) result ((kept_parts count window).read bytes.now) }
{
    let (n, rest) = u8_at(bytes, 0, window as u64 + 1)?;
    let end = if n == 0 { 1 } else { count };
    let (last, rest) = u64_at(rest, (n as u64).saturating_sub(1), end)?;
    let (list, rest) = list_of(n, rest)?;
    Ok((Kept { last, list }, rest))
}

#[tactic(auto, unfolding(crate::specs::Parts::samples_parts))]
fn samples_of(bytes: &[u8], count: u64, windows: [u8; 3]) -> Result<([Kept; 3], &[u8]), Left>
    requires { (i : ℕ) → slice_index windows i ≤ 32 }
    ensures { Gives (λ x. (x.0, x.1.now)) result ((samples_parts windows count).read bytes.now) }
{
    let (first, rest) = kept_of(bytes, count, windows[0])?;
    let (second, rest) = kept_of(rest, count, windows[1])?;
    let (third, rest) = kept_of(rest, count, windows[2])?;
    Ok(([first, second, third], rest))
}

#[tactic(auto, unfolding(crate::specs::Parts::demand_parts))]
fn demand_of(bytes: &[u8]) -> Result<([i64; 3], &[u8]), Left>
    ensures { Gives (λ x. (x.0, x.1.now)) result (demand_parts.read bytes.now) }
{
    let (surge, rest) = within_at(bytes, FORCE)?;
    let (sway, rest) = within_at(rest, FORCE)?;
    let (turn, rest) = within_at(rest, TURN)?;
    Ok(([surge, sway, turn], rest))
}

fn asked_of(n: u8, bytes: &[u8]) -> Result<(ArrayVec<[i64; 3], 60>, &[u8]), Left>
    requires { n ≤ 60 }
    ensures { Gives (λ x. (x.0.items, x.1.now)) result (times_at demand_parts.read n bytes.now) }
{
    let mut list = ArrayVec::new();
    let mut rest = bytes;
    for _ in 0..n {
        let (demand, after) = demand_of(rest)?;
        list.push(demand);
        rest = after;
    }
    Ok((list, rest))
}

#[tactic(auto, unfolding(crate::specs::Parts::demands_parts))]
fn demands_of(bytes: &[u8], count: u64) -> Result<(ArrayVec<[i64; 3], 60>, &[u8]), Left>
    ensures { Gives (λ x. (x.0, x.1.now)) result ((demands_parts count).read bytes.now) }
{
    let want = count.min(60);
    let (n, rest) = u8_at(bytes, want, want + 1)?;
    asked_of(n, rest)
}

#[tactic(auto, unfolding(crate::specs::Parts::state_parts))]
fn state_of<'a>(m: &Machine, version: u32, bytes: &'a [u8]) -> Result<(State, &'a [u8]), Left>
    ensures { let format = state_parts m.now.plant version in Gives (λ x. (x.0, x.1.now)) result
        (format.read bytes.now) }
{
    let (count, rest) = u64_at(bytes, 0, COUNTS)?;
    let (plane, rest) = inside_of(m, version, rest)?;
    let (yaw, rest) = yaw_of(rest)?;
    let (heading, rest) = u32_at(rest, 0, ANGLES)?;
    let (wind, rest) = u32_at(rest, 0, ANGLES)?;
    let (lost, rest) = u8_at(rest, 0, 2u64.pow(m.groups() as u32))?;
    let (samples, rest) = samples_of(rest, count, m.windows())?;
    let (demands, rest) = demands_of(rest, count)?;
    Ok((
        State {
            count,
            plane,
            yaw,
            heading,
            wind,
            lost,
            samples,
            demands,
        },
        rest,
    ))
}

/// The length of the whole, where it stands: that of the mark and of these bytes.
fn length_of(bytes: &[u8], version: u32) -> Result<(u32, &[u8]), Left>
    ensures { Gives (λ x. (x.0, x.1.now)) result (length_at version bytes.now) }
{
    if version == 1 {
        return Ok((0, bytes));
    }
    let length = bytes.len() as u64;
    u32_at(bytes, length + 4, length + 5)
}

/// The state that all of the bytes spell.
#[tactic(auto, unfolding(crate::specs::Spelling::all_of))]
pub(crate) fn all(m: &Machine, software: u8, bytes: &[u8]) -> Result<State, Left>
    requires { IsSoftware software }
    ensures { Gives (λ s. s) result (all_of m.now.plant software bytes.now) }
{
    let (mark, rest) = u32_at(bytes, MARK as u64 + 1, MARK as u64 + software as u64 + 1)?;
    let version = mark - MARK;
    let (_length, rest) = length_of(rest, version)?;
    let (state, rest) = state_of(m, version, rest)?;
    if !rest.is_empty() {
        return Err(Left { bytes: rest.len() });
    }
    Ok(state)
}
