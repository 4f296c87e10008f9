//! Numbers, the highest byte first: read from the front of bytes, and written.
ghost use Rattle.std.specs.Prelude.{◌≡◌, ◌≤◌, ◌<◌, ◌+◌, ◌++◌, pos, ◌≤ℤ◌, length, IfOk};
ghost use Rattle.std.specs.Int.{w8, w32, w64};
ghost use Rattle.arrayvec.specs.ArrayVec.{array_vec_len};
ghost use Rattle.dp_codec.specs.Format.{Gives};
ghost use Rattle.dp_codec.specs.Numbers.{signed_at, signed_text, unsigned_at, unsigned_text, within};

use arrayvec::ArrayVec;

/// How many bytes are left at the first fault.
#[derive(Clone, Copy, Debug, PartialEq, Eq)]
pub(crate) struct Left {
    pub(crate) bytes: usize,
}

/// A number of one byte, from lo up to but not including end.
#[tactic(auto, unfolding(crate::specs::Numbers::unsigned_at))]
pub(crate) fn u8_at(bytes: &[u8], lo: u64, end: u64) -> Result<(u8, &[u8]), Left>
    ensures gives { Gives (λ x. (x.0, x.1.now)) result (unsigned_at w8 lo end bytes.now) }
    ensures within { IfOk result (λ x. (lo ≤ x.0) × (x.0 < end)) }
{
    let left = Left { bytes: bytes.len() };
    if bytes.len() < 1 {
        return Err(left);
    }
    let (front, rest) = bytes.split_at(1);
    let number = u8::from_be_bytes([front[0]]);
    if lo <= number as u64 && (number as u64) < end {
        Ok((number, rest))
    } else {
        Err(left)
    }
}

/// A number of four bytes.
#[tactic(auto, unfolding(crate::specs::Numbers::unsigned_at))]
pub(crate) fn u32_at(bytes: &[u8], lo: u64, end: u64) -> Result<(u32, &[u8]), Left>
    ensures gives { Gives (λ x. (x.0, x.1.now)) result (unsigned_at w32 lo end bytes.now) }
    ensures within { IfOk result (λ x. (lo ≤ x.0) × (x.0 < end)) }
{
    let left = Left { bytes: bytes.len() };
    if bytes.len() < 4 {
        return Err(left);
    }
    let (front, rest) = bytes.split_at(4);
    let number = u32::from_be_bytes([front[0], front[1], front[2], front[3]]);
    if lo <= number as u64 && (number as u64) < end {
        Ok((number, rest))
    } else {
        Err(left)
    }
}

/// A number of eight bytes.
#[tactic(auto, unfolding(crate::specs::Numbers::unsigned_at))]
pub(crate) fn u64_at(bytes: &[u8], lo: u64, end: u64) -> Result<(u64, &[u8]), Left>
    ensures gives { Gives (λ x. (x.0, x.1.now)) result (unsigned_at w64 lo end bytes.now) }
    ensures within { IfOk result (λ x. (lo ≤ x.0) × (x.0 < end)) }
{
    let left = Left { bytes: bytes.len() };
    if bytes.len() < 8 {
        return Err(left);
    }
    let (front, rest) = bytes.split_at(8);
    let number = u64::from_be_bytes([
        front[0], front[1], front[2], front[3], front[4], front[5], front[6], front[7],
    ]);
    if lo <= number && number < end {
        Ok((number, rest))
    } else {
        Err(left)
    }
}

/// A signed number, from lo to hi.
#[tactic(auto, unfolding(crate::specs::Numbers::signed_at))]
pub(crate) fn i64_at(bytes: &[u8], lo: i64, hi: i64) -> Result<(i64, &[u8]), Left>
    ensures { Gives (λ x. (x.0, x.1.now)) result (signed_at lo hi bytes.now) }
{
    let left = Left { bytes: bytes.len() };
    if bytes.len() < 8 {
        return Err(left);
    }
    let (front, rest) = bytes.split_at(8);
    let number = i64::from_be_bytes([
        front[0], front[1], front[2], front[3], front[4], front[5], front[6], front[7],
    ]);
    if lo <= number && number <= hi {
        Ok((number, rest))
    } else {
        Err(left)
    }
}

/// A signed number within a limit of zero.
pub(crate) fn within_at(bytes: &[u8], limit: i64) -> Result<(i64, &[u8]), Left>
    requires { pos 0 ≤ℤ limit }
    ensures { Gives (λ x. (x.0, x.1.now)) result ((within limit).read bytes.now) }
{
    i64_at(bytes, -limit, limit)
}

/// Appends bytes.
pub(crate) fn put(out: &mut ArrayVec<u8, 4096>, bytes: &[u8])
    requires { array_vec_len out.old + length bytes.now ≤ 4096 }
    ensures items { out.new.items ≡ out.old.items ++ bytes.now }
    ensures len { array_vec_len out.new ≡ array_vec_len out.old + length bytes.now }
{
    // there is room
    let _fits = out.try_extend_from_slice(bytes);
}

/// Appends a number of one byte.
#[tactic(auto, unfolding(crate::specs::Numbers::unsigned_text))]
pub(crate) fn put_u8(out: &mut ArrayVec<u8, 4096>, n: u8)
    requires { array_vec_len out.old + 1 ≤ 4096 }
    ensures items { out.new.items ≡ out.old.items ++ unsigned_text w8 n }
    ensures len { array_vec_len out.new ≡ array_vec_len out.old + 1 }
{
    put(out, &n.to_be_bytes());
}

/// Appends a number of four bytes.
#[tactic(auto, unfolding(crate::specs::Numbers::unsigned_text))]
pub(crate) fn put_u32(out: &mut ArrayVec<u8, 4096>, n: u32)
    requires { array_vec_len out.old + 4 ≤ 4096 }
    ensures items { out.new.items ≡ out.old.items ++ unsigned_text w32 n }
    ensures len { array_vec_len out.new ≡ array_vec_len out.old + 4 }
{
    put(out, &n.to_be_bytes());
}

/// Appends a number of eight bytes.
#[tactic(auto, unfolding(crate::specs::Numbers::unsigned_text))]
pub(crate) fn put_u64(out: &mut ArrayVec<u8, 4096>, n: u64)
    requires { array_vec_len out.old + 8 ≤ 4096 }
    ensures items { out.new.items ≡ out.old.items ++ unsigned_text w64 n }
    ensures len { array_vec_len out.new ≡ array_vec_len out.old + 8 }
{
    put(out, &n.to_be_bytes());
}

/// Appends a signed number.
#[tactic(auto, unfolding(crate::specs::Numbers::signed_text))]
pub(crate) fn put_signed(out: &mut ArrayVec<u8, 4096>, z: i64)
    requires { array_vec_len out.old + 8 ≤ 4096 }
    ensures items { out.new.items ≡ out.old.items ++ signed_text z }
    ensures len { array_vec_len out.new ≡ array_vec_len out.old + 8 }
{
    put(out, &z.to_be_bytes());
}
