//! All cases of a plant, judged.
ghost use Rattle.std.specs.Prelude.{◌≡◌, length};
ghost use Rattle.std.specs.Option.{option_map};
ghost use Rattle.dp_plant.specs.{IsCaseWithin};
ghost use Rattle.dp_alloc.specs.Refusals.{first_refused, refusal};

use crate::CaseRefusal;
use crate::conditions::case_fault;
use dp_plant::{Plant, RawCase};
use dp_trig::Trig;

/// The first of the plant's cases, in its order, that is refused, and why. It takes no memory.
#[tactic(auto, unfolding(crate::specs::Refusals::first_refused))]
pub fn first_refused(plant: &Plant, trig: &Trig) -> Option<CaseRefusal>
    ensures { result ≡ first_refused plant.now }
{
    for raw in plant.cases.as_slice() {
        let refusal = refusal(raw, plant, trig);
        if refusal.is_some() {
            return refusal;
        }
    }
    None
}

fn refusal(raw: &RawCase, plant: &Plant, trig: &Trig) -> Option<CaseRefusal>
    requires { IsCaseWithin (length plant.now.thrusters.items) raw.now }
    ensures { result ≡ refusal plant.now raw.now }
{
    let fault = case_fault(raw, plant, trig)?;
    Some(CaseRefusal {
        lost: raw.lost,
        fault,
    })
}
