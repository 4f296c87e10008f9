//! Certificates that are made for any gains and form.
ghost use Rattle.std.specs.Prelude.{◌≡◌, ◌↔◌, None, IfErr, IfOk, IsOk, option_map};
ghost use Rattle.dp_cert.specs.{first_out};
ghost use Rattle.dp_squares.specs.{made_cert};
ghost use Rattle.dp_squares.specs.Ranges.{range_of};

use crate::made::make_cert;
use dp_cert::{CertFault, accept};
use dp_plant::{Cert, Gains, Key, YawGains};

/// The certificate that [`make_cert`](crate::make_cert) makes for gains from the form of any certificate.
///
/// Where a number of the gains or of the given certificate is out of its range, it is refused with the first such number's key, as
/// [`dp_cert::accept`] refuses it. Nothing else of the given certificate is refused.
pub fn make_in_range(g: &Gains, y: &YawGains, c: &Cert) -> Result<Cert, CertFault>
    ensures made { IsOk result ↔ (first_out g.now y.now c.now ≡ None) }
    ensures value { IfOk result (λ made. made ≡ made_cert g.now c.now) }
    ensures refused { IfErr result (λ fault. range_of fault ≡ first_out g.now y.now c.now) }
{
    match first_out(g, y, c) {
        Some(name) => Err(CertFault::Range { name }),
        None => Ok(make_cert(g, c)),
    }
}

/// The key of the first number out of range.
fn first_out(g: &Gains, y: &YawGains, c: &Cert) -> Option<Key>
    ensures { option_map (λ key. key.bytes) result ≡ first_out g.now y.now c.now }
{
    match accept(g, y, c) {
        Ok(_) => None,
        Err(fault) => key_of(fault),
    }
}

/// The key that a refusal by range names.
fn key_of(fault: CertFault) -> Option<Key>
    ensures { option_map (λ key. key.bytes) result ≡ range_of fault }
{
    match fault {
        CertFault::Range { name } => Some(name),
        _ => None,
    }
}
