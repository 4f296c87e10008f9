//! The names of the wires.
ghost use Rattle.std.specs.Prelude.{◌≡◌, ◌<◌, ◌≤◌, IfSome};
ghost use Rattle.dp_frame.specs.{IsWire, numbered, wire_of};

use dp_plant::Wire;

/// The wire of a name, on a plant with so many groups.
#[tactic(auto, unfolding(crate::specs::Wires::wire_of))]
pub(crate) fn wire(groups: u8, name: &[u8]) -> Option<Wire>
    requires { groups ≤ 8 }
    ensures value { result ≡ wire_of groups name.now }
    ensures wire { IfSome result (λ w. IsWire groups w) }
{
    if let Some(number) = numbered(b"pos", 3, name) {
        return Some(Wire::Pos(number));
    }
    if let Some(number) = numbered(b"gyro", 3, name) {
        return Some(Wire::Gyro(number));
    }
    if let Some(number) = numbered(b"wind", 3, name) {
        return Some(Wire::Wind(number));
    }
    let number = numbered(b"grp", groups, name)?;
    Some(Wire::Group(number))
}

/// The number of a name that is a stem and one digit, where it is below the limit.
#[tactic(auto, unfolding(crate::specs::Wires::numbered))]
fn numbered(stem: &[u8], limit: u8, name: &[u8]) -> Option<u8>
    requires { limit ≤ 8 }
    ensures value { result ≡ numbered stem.now limit name.now }
    ensures below { IfSome result (λ i. i < limit) }
{
    if name.len() != stem.len() + 1 || !name.starts_with(stem) {
        return None;
    }
    let digit = name[stem.len()];
    if digit < b'0' || digit >= b'0' + limit {
        return None;
    }
    Some(digit - b'0')
}
