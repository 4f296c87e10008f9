//! Gains whose certificate is valid.
ghost use Rattle.std.specs.Prelude.{◌≡◌, ◌≤◌, ◌↔◌, All, IfErr, IfOk, IsOk, OnOk, length, map};
ghost use Rattle.dp_cert.specs.Bound.{IsShareRow, bound};
ghost use Rattle.dp_cert.specs.Ranges.{first_out};
ghost use Rattle.dp_cert.specs.InRange.{AreGainsWithin};
ghost use Rattle.dp_cert.specs.Sound.{IsSound};
ghost use Rattle.dp_cert.specs.Valid.{IsRefusal, IsValid, first_fault};

use crate::CertFault;
use crate::bound::bound_of;
use crate::judge::first_fault;
use crate::ranges::first_out;
use arrayvec::ArrayVec;
use dp_plant::{Cert, Gains, Key, RawCase, YawGains};

/// Gains with the certificate that was accepted for them: every condition that [`accept`] checks holds of them.
#[derive(Debug, Drop)]
pub struct Accepted {
    pub gains: Gains,
    pub yaw: YawGains,
    pub cert: Cert,
    ghost valid: { IsValid gains yaw cert },
    ghost sound: { IsSound gains cert },
}

fn named(name: &'static str) -> Key
    requires { length name.now ≤ 48 }
    ensures { result.bytes ≡ name.now }
{
    let mut key = Key::new();
    key.push_str(name);
    key
}

/// Accepts gains whose certificate is valid, or says the first condition that fails.
///
/// The conditions, in order: each number is in its range (a fault names the first that isn't, by its key in the plant file, in the file's
/// order; without a wave filter `gains.wave` and `gains.k1` are zeros); the rate `rho` is below one; the squares show the form, that each
/// vertex of surge and of sway shrinks it, that `b` and `r` are enough for a measured place and for the roundings, that the form bounds
/// the demands and each coordinate; and every state that the plant can reach fits 64 bits, its form 128.
pub fn accept(g: &Gains, y: &YawGains, c: &Cert) -> Result<Accepted, CertFault>
    ensures accepted { IsOk result ↔ IsValid g.now y.now c.now }
    ensures refused { IfErr result
        (IsRefusal (first_out g.now y.now c.now) (first_fault g.now c.now)) }
    ensures within { OnOk result (AreGainsWithin g.now y.now) }
    ensures sound { OnOk result (IsSound g.now c.now) }
    ensures kept { IfOk result (λ a. (a.gains ≡ g.now) × (a.yaw ≡ y.now) × (a.cert ≡ c.now)) }
{
    match first_out(g, y, c) {
        Some(name) => Err(CertFault::Range { name: named(name) }),
        None => match first_fault(g, c) {
            Some(fault) => Err(fault),
            None => Ok(Accepted {
                gains: *g,
                yaw: *y,
                cert: c.copy(),
            }),
        },
    }
}

impl Accepted {
    /// The same gains with the same certificate, which takes no memory.
    pub fn copy(&self) -> Self
        ensures { result ≡ self.now }
    {
        Accepted {
            gains: self.gains,
            yaw: self.yaw,
            cert: self.cert.copy(),
        }
    }

    /// Gain and offset of each thruster of a case: how far its force can move, times 2^20, for each nanometre between the two other
    /// references, and besides.
    ///
    /// The force is in newtons. Replacing one position reference for any number of cycles, in which the other two stay within s of
    /// each other, moves 2^20 times the force of thruster k by at most `bounds[k].0` * s + `bounds[k].1`. The case's shares lie within
    /// ±2^31.
    pub fn bounds(&self, case: &RawCase) -> ArrayVec<(i128, i128), 12>
        requires { All IsShareRow case.now.b.items }
        ensures { result.items ≡ map (bound self.now.cert) case.now.b.items }
    {
        let mut bounds = ArrayVec::new();
        for row in case.b.as_slice() {
            bounds.push(bound_of(&self.cert, row));
        }
        bounds
    }
}
