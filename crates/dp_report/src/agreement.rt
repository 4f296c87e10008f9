//! What at least two computers' alarms raise.
ghost use Rattle.std.specs.Prelude.{◌≡◌, ◌∷◌, []};
ghost use Rattle.dp_report.specs.{agreed, agreed_alarms, agreed_bits, agreed_cause, are_two, is_cause, raised_by};

use dp_plant::{Alarms, Cause};

/// What at least two of the three computers raise; none where fewer than two are there.
///
/// A reference is told with a cause where at least two computers name just that cause. Each other alarm, each wire with damage and each
/// group among the lost ones is taken by itself.
#[tactic(auto, unfolding(crate::specs::Agreement::agreed))]
pub fn agree(a: &[Option<Alarms>; 3]) -> Option<Alarms>
    ensures { result ≡ agreed a.now }
{
    let [first, second, third] = *a;
    if are_two(first.is_some(), second.is_some(), third.is_some()) {
        let first = raised_by(first);
        let second = raised_by(second);
        let third = raised_by(third);
        Some(agreed_alarms(&first, &second, &third))
    } else {
        None
    }
}

/// Who isn't there raises nothing.
fn raised_by(alarms: Option<Alarms>) -> Alarms
    ensures { result ≡ raised_by alarms }
{
    alarms.unwrap_or(Alarms {
        refs: [Cause::Good; 3],
        damaged: 0,
        blind: false,
        gyro: false,
        wind: false,
        limited: [false; 3],
        nocase: false,
        lost: 0,
    })
}

#[tactic(auto, unfolding(crate::specs::Agreement::agreed_alarms))]
fn agreed_alarms(a: &Alarms, b: &Alarms, c: &Alarms) -> Alarms
    ensures { result ≡ agreed_alarms (a.now ∷ b.now ∷ c.now ∷ []) }
{
    Alarms {
        refs: [
            agreed_cause(a.refs[0], b.refs[0], c.refs[0]),
            agreed_cause(a.refs[1], b.refs[1], c.refs[1]),
            agreed_cause(a.refs[2], b.refs[2], c.refs[2]),
        ],
        damaged: agreed_wires(a.damaged, b.damaged, c.damaged),
        blind: are_two(a.blind, b.blind, c.blind),
        gyro: are_two(a.gyro, b.gyro, c.gyro),
        wind: are_two(a.wind, b.wind, c.wind),
        limited: [
            are_two(a.limited[0], b.limited[0], c.limited[0]),
            are_two(a.limited[1], b.limited[1], c.limited[1]),
            are_two(a.limited[2], b.limited[2], c.limited[2]),
        ],
        nocase: are_two(a.nocase, b.nocase, c.nocase),
        lost: agreed_groups(a.lost, b.lost, c.lost),
    }
}

/// The fault that at least two give.
#[tactic(auto, using(crate::proofs::CauseVotes::voted_cause))]
fn agreed_cause(a: Cause, b: Cause, c: Cause) -> Cause
    ensures { result ≡ agreed_cause (a ∷ b ∷ c ∷ []) }
{
    if is_cause(a, b) {
        a
    } else if is_cause(b, c) {
        b
    } else if is_cause(c, a) {
        c
    } else {
        Cause::Good
    }
}

fn are_two(a: bool, b: bool, c: bool) -> bool
    ensures { result ≡ are_two (λ x. x) (a ∷ b ∷ c ∷ []) }
{
    (a && (b || c)) || (b && c)
}

fn is_cause(a: Cause, b: Cause) -> bool
    ensures { result ≡ is_cause a b }
{
    a == b
}

/// The wires that at least two masks have.
fn agreed_wires(a: u32, b: u32, c: u32) -> u32
    ensures { result ≡ agreed_bits 32 (a ∷ b ∷ c ∷ []) }
{
    a & b | a & c | b & c
}

/// The groups that at least two masks have.
fn agreed_groups(a: u8, b: u8, c: u8) -> u8
    ensures { result ≡ agreed_bits 8 (a ∷ b ∷ c ∷ []) }
{
    a & b | a & c | b & c
}
