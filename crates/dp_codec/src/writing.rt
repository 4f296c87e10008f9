//! Writing a state.
ghost use Rattle.std.specs.Prelude.{◌≡◌, ◌≤◌, ◌+◌, ◌++◌, ℕ, List, All, length, pos};
ghost use Rattle.dp_plant.specs.declared.plane.PlaneState.{PlaneState};
ghost use Rattle.dp_plant.specs.declared.plant.Plant.{Plant};
ghost use Rattle.arrayvec.specs.ArrayVec.{array_vec_len};
ghost use Rattle.dp_codec.specs.Parts.{coordinates, demand_parts, demands_parts, inside_parts, kept_parts, places, plane_parts, sample_parts, samples_parts, state_parts, wave_limit, wave_parts, waves_stand, yaw_parts};
ghost use Rattle.dp_codec.specs.Spelling.{IsSoftware, IsThree, length_text, spelling_of};

use crate::numbers::{put_signed, put_u8, put_u32, put_u64};
use crate::reading::{MARK, waves_stand};
use arrayvec::ArrayVec;
use dp_machine::{Kept, Machine, State};
use dp_plant::{Place, PlaneState, YawState};

#[tactic(auto, using(std::proofs::Common::append_assoc))]
fn put_places(out: &mut ArrayVec<u8, 4096>, p: &Place)
    requires { array_vec_len out.old + 16 ≤ 4096 }
    ensures items { out.new.items ≡ out.old.items ++ (places (pos 0)).spell p.now }
    ensures len { array_vec_len out.new ≡ array_vec_len out.old + 16 }
{
    put_signed(out, p.north);
    put_signed(out, p.east);
}

#[tactic(auto, unfolding(crate::specs::Parts::coordinates))]
fn put_coordinates(out: &mut ArrayVec<u8, 4096>, p: &Place)
    requires { array_vec_len out.old + 16 ≤ 4096 }
    ensures items { out.new.items ≡ out.old.items ++ coordinates.spell p.now }
    ensures len { array_vec_len out.new ≡ array_vec_len out.old + 16 }
{
    put_places(out, p);
}

#[tactic(auto, unfolding(crate::specs::Parts::sample_parts))]
fn put_sample(out: &mut ArrayVec<u8, 4096>, p: &Place)
    requires { array_vec_len out.old + 16 ≤ 4096 }
    ensures items { out.new.items ≡ out.old.items ++ sample_parts.spell p.now }
    ensures len { array_vec_len out.new ≡ array_vec_len out.old + 16 }
{
    put_places(out, p);
}

/// A wave state, where it stands.
#[tactic(auto, unfolding(crate::specs::Parts::wave_parts))]
fn put_wave(out: &mut ArrayVec<u8, 4096>, m: &Machine, version: u32, p: &Place)
    requires { array_vec_len out.old + 16 ≤ 4096 }
    ensures items { let plant = m.now.plant in out.new.items
        ≡ out.old.items ++ (wave_parts (waves_stand plant version) (wave_limit plant)).spell p.now }
    ensures len { array_vec_len out.new ≤ array_vec_len out.old + 16 }
{
    if waves_stand(m, version) {
        put_places(out, p);
    }
}

#[tactic(auto, using(std::proofs::Common::append_assoc), unfolding(crate::specs::Parts::plane_parts, crate::specs::Parts::inside_parts))]
fn put_plane(out: &mut ArrayVec<u8, 4096>, m: &Machine, version: u32, x: &PlaneState)
    requires { array_vec_len out.old + 80 ≤ 4096 }
    ensures items { out.new.items
        ≡ out.old.items ++ (inside_parts m.now.plant version).spell x.now }
    ensures len { array_vec_len out.new ≤ array_vec_len out.old + 80 }
{
    put_coordinates(out, &x.eta);
    put_coordinates(out, &x.beta);
    put_coordinates(out, &x.vel);
    put_wave(out, m, version, &x.wave_p);
    put_wave(out, m, version, &x.wave_q);
}

#[tactic(auto, using(std::proofs::Common::append_assoc), unfolding(crate::specs::Parts::yaw_parts))]
fn put_yaw(out: &mut ArrayVec<u8, 4096>, x: &YawState)
    requires { array_vec_len out.old + 24 ≤ 4096 }
    ensures items { out.new.items ≡ out.old.items ++ yaw_parts.spell x.now }
    ensures len { array_vec_len out.new ≡ array_vec_len out.old + 24 }
{
    put_signed(out, x.psi);
    put_signed(out, x.beta);
    put_signed(out, x.rate);
}

#[tactic(auto, using(std::proofs::Common::append_assoc), unfolding(crate::specs::Parts::kept_parts))]
fn put_kept(out: &mut ArrayVec<u8, 4096>, k: &Kept)
    requires { array_vec_len out.old + 521 ≤ 4096 }
    ensures items { (count window : ℕ) → out.new.items
        ≡ out.old.items ++ (kept_parts count window).spell k.now }
    ensures len { array_vec_len out.new ≤ array_vec_len out.old + 521 }
{
    let list = k.list.as_slice();
    put_u8(out, list.len() as u8);
    put_u64(out, k.last);
    for p in list {
        put_sample(out, p);
    }
}

/// The windows of the three references.
#[tactic(auto, using(std::proofs::Common::append_assoc), unfolding(crate::specs::Parts::samples_parts))]
fn put_samples(out: &mut ArrayVec<u8, 4096>, samples: &[Kept; 3])
    requires { array_vec_len out.old + 1563 ≤ 4096 }
    ensures items { (windows : List ℕ) (count : ℕ) → out.new.items
        ≡ out.old.items ++ (samples_parts windows count).spell samples.now }
    ensures three { length samples.now ≡ 3 }
    ensures len { array_vec_len out.new ≤ array_vec_len out.old + 1563 }
{
    put_kept(out, &samples[0]);
    put_kept(out, &samples[1]);
    put_kept(out, &samples[2]);
}

#[tactic(auto, using(std::proofs::Common::append_assoc), unfolding(crate::specs::Parts::demand_parts))]
fn put_demand(out: &mut ArrayVec<u8, 4096>, d: &[i64; 3])
    requires { array_vec_len out.old + 24 ≤ 4096 }
    ensures items { out.new.items ≡ out.old.items ++ demand_parts.spell d.now }
    ensures three { IsThree d.now }
    ensures len { array_vec_len out.new ≡ array_vec_len out.old + 24 }
{
    put_signed(out, d[0]);
    put_signed(out, d[1]);
    put_signed(out, d[2]);
}

#[tactic(auto, using(std::proofs::Common::append_assoc), unfolding(crate::specs::Parts::demands_parts))]
fn put_demands(out: &mut ArrayVec<u8, 4096>, d: &ArrayVec<[i64; 3], 60>)
    requires { array_vec_len out.old + 1441 ≤ 4096 }
    ensures items { (count : ℕ) → out.new.items
        ≡ out.old.items ++ (demands_parts count).spell d.now }
    ensures three { All IsThree d.now.items }
    ensures len { array_vec_len out.new ≤ array_vec_len out.old + 1441 }
{
    let list = d.as_slice();
    put_u8(out, list.len() as u8);
    for demand in list {
        put_demand(out, demand);
    }
}

/// All parts of a state, with this plane.
#[tactic(auto, using(std::proofs::Common::append_assoc), unfolding(crate::specs::Parts::state_parts))]
fn put_state(out: &mut ArrayVec<u8, 4096>, m: &Machine, version: u32, s: &State, x: &PlaneState)
    requires { array_vec_len out.old ≤ 8 }
    ensures items { out.new.items
        ≡ out.old.items
        ++ (state_parts m.now.plant version).spell (record s.now { plane = x.now }) }
    ensures samples { length s.now.samples ≡ 3 }
    ensures demands { All IsThree s.now.demands.items }
    ensures len { array_vec_len out.new ≤ array_vec_len out.old + 3125 }
{
    put_u64(out, s.count);
    put_plane(out, m, version, x);
    put_yaw(out, &s.yaw);
    put_u32(out, s.heading);
    put_u32(out, s.wind);
    put_u8(out, s.lost);
    put_samples(out, &s.samples);
    put_demands(out, &s.demands);
}

/// How long spelling 2 of a state is, whatever its plane: 157 bytes, and those of its samples and demands.
fn whole_length(s: &State) -> u32
    ensures value { (p : Plant) (x : PlaneState) → result
        ≡ 8 + length ((state_parts p 2).spell (record s.now { plane = x })) }
{
    let [first, second, third] = &s.samples;
    let samples = first.list.len() + second.list.len() + third.list.len();
    (157 + 16 * samples + 24 * s.demands.len()) as u32
}

/// The length of the whole, in spelling 2.
fn put_length(out: &mut ArrayVec<u8, 4096>, version: u32, s: &State)
    requires software { IsSoftware version }
    requires room { array_vec_len out.old ≤ 4 }
    ensures items { (p : Plant) (x : PlaneState) → out.new.items
        ≡ out.old.items
        ++ length_text version ((state_parts p version).spell (record s.now { plane = x })) }
    ensures len { array_vec_len out.new ≤ array_vec_len out.old + 4 }
{
    if version == 1 {
        return;
    }
    put_u32(out, whole_length(s));
}

/// Replaces the content by the spelling of a state with this plane, in the version that the software writes.
#[tactic(auto, using(std::proofs::Common::append_assoc), unfolding(crate::specs::Spelling::spelling_of))]
pub(crate) fn write_with(
    m: &Machine,
    software: u8,
    s: &State,
    x: &PlaneState,
    out: &mut ArrayVec<u8, 4096>,
)
    requires { IsSoftware software }
    ensures items { out.new.items
        ≡ spelling_of m.now.plant software (record s.now { plane = x.now }) }
    ensures samples { length s.now.samples ≡ 3 }
    ensures demands { All IsThree s.now.demands.items }
    ensures len { array_vec_len out.new ≤ 3133 }
{
    let version = software as u32;
    out.clear();
    put_u32(out, MARK + version);
    put_length(out, version, s);
    put_state(out, m, version, s, x);
}
