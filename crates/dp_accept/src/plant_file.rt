//! The plant of a file: the file is read, and its keys, cases and gains are judged.
ghost use Rattle.std.specs.Prelude.{◌≡◌, ◌≢◌, ◌⊎◌, List, Option, IfErr, IfOk, IfSome, IsErrOf, IsSomeAnd, None, Ok, Err, Some};
ghost use Rattle.dp_shell.specs.{ReadsOnly, Rose, text_named};
ghost use Rattle.dp_alloc.specs.{AreAccepted};
ghost use Rattle.dp_plant.specs.{plant_view};
ghost use Rattle.dp_machine.specs.{IsAcceptedPlant};
ghost use Rattle.dp_accept.specs.declared.refusals.GainsRefusal.{GainsRefusal as Refusal};
ghost use Rattle.dp_plant.specs.declared.plant.Plant.{Plant as PlantValue};
ghost use Rattle.dp_accept.specs.{GivesPlant, IsOfFile, by_own_certificate, cases_fault, data_in, data_of, data_within, document_of, file_trouble, prefix_of, prefix_read, plant_limit};

use crate::refusals::{GainsRefusal, PlantRefusal, name_of};
use crate::trouble::PlantTrouble;
use dp_alloc::first_refused;
use dp_cert::{Accepted, accept};
use dp_plant::{Plant, PlantFault, plant_of};
use dp_shell::{FilePart, ReadTrouble, Shelf, read_whole};
use dp_trig::Trig;
use std::alloc::Global;

/// The most bytes of a plant file.
const PLANT_LIMIT: usize = 1 << 20;

/// A plant that isn't refused, and its gains with their certificate.
#[derive(Drop)]
pub struct AcceptedPlant {
    pub plant: Plant,
    pub accepted: Accepted,
}

/// Reads a plant file, and judges its keys, its cases and its gains with their own certificate.
pub fn accept_plant<F: Shelf>(
    alloc: Global,
    shelf: &mut F,
    name: &str,
) -> Result<AcceptedPlant, PlantTrouble>
    ensures ok { IfOk result (λ r. IfSome (F.files shelf.old) (λ files.
        GivesPlant by_own_certificate (text_named files name.now) (Ok r.plant))) }
    ensures accepted { IfOk result (λ r. IsAcceptedPlant r.plant r.accepted) }

    // A refusal that the file gives is the file's.
    ensures err { IfErr result (λ why. IsOfFile why → IfSome (F.files shelf.old) (λ files.
        GivesPlant by_own_certificate (text_named files name.now) (Err why))) }

    // A fault of reading is counted.
    ensures failed { IsErrOf result PlantTrouble.Read
        → Rose (F.faults shelf.old name.now) (F.faults shelf.new name.now) }
    ensures reads { ReadsOnly F.files F.apart F.faults name.now shelf.old shelf.new }
{
    let plant = read_plant(alloc, shelf, name)?;
    match accept_gains(plant) {
        Ok(accepted) => Ok(accepted),
        Err(why) => Err(PlantTrouble::Gains { why }),
    }
}

/// Reads a plant file, and judges its keys and its cases. The gains aren't judged.
pub fn read_plant<F: Shelf>(alloc: Global, shelf: &mut F, name: &str) -> Result<Plant, PlantTrouble>
    ensures ok { IfOk result (λ p. IfSome (F.files shelf.old) (λ files.
        data_in (text_named files name.now) ≡ Ok (plant_view p))) }
    ensures accepted { IfOk result AreAccepted }

    // A refusal that the file gives is the file's, whatever judges the gains.
    ensures err { IfErr result (λ why. IsOfFile why → IfSome (F.files shelf.old) (λ files.
        (judge : PlantValue → Option Refusal)
        → GivesPlant judge (text_named files name.now) (Err why))) }

    // A fault of reading is counted.
    ensures failed { IsErrOf result PlantTrouble.Read
        → Rose (F.faults shelf.old name.now) (F.faults shelf.new name.now) }
    ensures reads { ReadsOnly F.files F.apart F.faults name.now shelf.old shelf.new }
{
    let part = read_part(alloc, shelf, name)?;
    let plant = plant_within(alloc, &part)?;
    judge_cases(plant)
}

/// Reads a plant file up to its limit.
fn read_part<F: Shelf>(alloc: Global, shelf: &mut F, name: &str) -> Result<FilePart, PlantTrouble>
    ensures ok { IfOk result (λ part. IfSome (F.files shelf.old) (λ files.
        IsSomeAnd (text_named files name.now)
        (λ text. prefix_read part ≡ prefix_of plant_limit text))) }
    ensures err { IfErr result (λ why. (why ≡ PlantTrouble.Read) ⊎ (why ≡ PlantTrouble.Memory)) }
    ensures failed { IsErrOf result PlantTrouble.Read
        → Rose (F.faults shelf.old name.now) (F.faults shelf.new name.now) }
    ensures reads { ReadsOnly F.files F.apart F.faults name.now shelf.old shelf.new }
{
    match read_whole(alloc, shelf, name, PLANT_LIMIT) {
        Ok(part) => Ok(part),
        Err(ReadTrouble::Failed) => Err(PlantTrouble::Read),
        Err(ReadTrouble::Memory) => Err(PlantTrouble::Memory),
    }
}

/// The plant of a file that was read, unless its length or a key is refused.
#[tactic(auto, unfolding(crate::specs::PlantFiles::data_within))]
fn plant_within(alloc: Global, part: &FilePart) -> Result<Plant, PlantTrouble>
    ensures ok { IfOk result (λ p. data_within (prefix_read part.now) ≡ Ok (plant_view p)) }
    ensures err { IfErr result (λ why. IsOfFile why
        → data_within (prefix_read part.now) ≡ Err why) }
    ensures read { IsErrOf result PlantTrouble.Read → ⊥ }
{
    if part.is_cut {
        return Err(PlantTrouble::Long);
    }
    plant_in(alloc, &part.text)
}

/// The plant of a text, unless a key is refused.
fn plant_in(alloc: Global, text: &[u8]) -> Result<Plant, PlantTrouble>
    ensures ok { IfOk result (λ p. data_of (document_of text.now) ≡ Ok (plant_view p)) }
    ensures err { IfErr result (λ why. IsOfFile why → data_of (document_of text.now) ≡ Err why) }
    ensures read { IsErrOf result PlantTrouble.Read → ⊥ }
{
    match plant_of(alloc, text) {
        Ok(plant) => Ok(plant),
        Err(fault) => Err(file_trouble(fault)),
    }
}

/// What a fault of a plant file is told as.
fn file_trouble(fault: PlantFault) -> PlantTrouble
    ensures value { result ≡ file_trouble fault }
    ensures read { result ≢ PlantTrouble.Read }
{
    let why = match fault {
        PlantFault::Toml => PlantRefusal::Toml,
        PlantFault::Missing { key } => PlantRefusal::Missing { key: name_of(&key) },
        PlantFault::Kind { key } => PlantRefusal::Kind { key: name_of(&key) },
        PlantFault::Range { key } => PlantRefusal::Range { key: name_of(&key) },
        PlantFault::Memory => return PlantTrouble::Memory,
    };
    PlantTrouble::Plant { why }
}

/// The plant, unless a case is refused.
fn judge_cases(plant: Plant) -> Result<Plant, PlantTrouble>
    ensures ok { IfOk result (λ p. (p ≡ plant) × AreAccepted plant) }
    ensures err { IfErr result (λ why. cases_fault plant ≡ Some why) }
{
    match first_refused(&plant, &Trig::new()) {
        None => Ok(plant),
        Some(refusal) => Err(PlantTrouble::Plant {
            why: PlantRefusal::Case { refusal },
        }),
    }
}

/// A plant of which no case is refused, and its gains with their own certificate, unless they are refused.
#[tactic(auto, unfolding(crate::specs::PlantFiles::by_own_certificate))]
pub fn accept_gains(plant: Plant) -> Result<AcceptedPlant, GainsRefusal>
    requires { AreAccepted plant }
    ensures plant { IfOk result (λ r. r.plant ≡ plant) }
    ensures ok { IfOk result (λ r. by_own_certificate plant ≡ None) }
    ensures accepted { IfOk result (λ r. IsAcceptedPlant r.plant r.accepted) }
    ensures err { IfErr result (λ why. by_own_certificate plant ≡ Some why) }
{
    match accept(&plant.gains, &plant.yaw, &plant.cert) {
        Ok(accepted) => Ok(AcceptedPlant { plant, accepted }),
        Err(fault) => Err(GainsRefusal::of(fault)),
    }
}
