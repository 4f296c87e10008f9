ghost use Rattle.std.specs.Prelude.{◌≡◌, ◌≢◌, ℕ, None, IfErr, IfOk, false, ◌<◌, ◌≤◌, ◌-◌, ◌++◌, [], ◌∷◌, ◌==◌, All, List, OnOk, Some, length, slice_get, filter, map, take, drop};
ghost use Rattle.std.specs.List.{AllWithin};
ghost use Rattle.std.specs.List.Sorted.{IsNonDecreasingBy};
ghost use Rattle.dp_script.specs.declared.timed_act.TimedAct.{TimedAct};
ghost use Rattle.dp_script.specs.Acts.{usual_acts, IsWithin};
ghost use Rattle.dp_script.specs.Instructions.{IsGiven};
ghost use Rattle.dp_script.specs.Faults.{fault_in};
ghost use Rattle.dp_script.specs.TimedActs.{acts_at, acts_in, has_usual_acts, timed_acts_by, timed_acts_of, timed_acts_with, IsScript};
ghost use Rattle.dp_text.specs.{lines_of};
ghost use Rattle.dp_script.specs.declared.fault.ScriptFault.TheVariants.{Memory};

use crate::ScriptFault;
use crate::act::Act;
use crate::draft::Draft;
use crate::instruction::{Acts, Instruction};
use crate::timed_act::TimedAct;
use crate::usual::{USUAL, usual};
use dp_text::next_line;
use std::alloc::{AllocError, Global};
use std::marker::Model;

/// A script without a faulty line, seen as its acts in order, each with its cycle.
#[derive(Drop)]
pub struct Script {
    timed_acts: Vec<TimedAct>,
}

impl Model for Script {
    ghost Value = { List TimedAct };

    ghost view = { λ s. s.timed_acts.items };

    ghost invariant = { λ s. IsScript s.timed_acts.items };
}

impl Script {
    /// The script of a text, or its first faulty line. `Memory` is the answer only where memory was wanted and not found.
    pub fn of(alloc: Global, bytes: &[u8]) -> Result<Script, ScriptFault>
        ensures clean { OnOk result (fault_in bytes.now ≡ None) }
        ensures fault { IfErr result (λ fault. fault ≢ Memory → fault_in bytes.now ≡ Some fault) }
        ensures timed_acts { IfOk result
            (λ script. script ≡ timed_acts_by (lines_of false bytes.now)) }
        ensures acts { IfOk result
            (λ script. (cycle : ℕ) → acts_at cycle script ≡ acts_in cycle bytes.now) }
    {
        let mut draft = Draft::new(alloc);
        let mut rest = bytes;
        while let Some((line, after)) = next_line(rest, false) {
            draft.hear(line)?;
            rest = after;
        }
        Ok(draft.into_script())
    }

    /// How many acts a cycle has: those of the lines that name it, or six where no line does.
    pub fn len(&self, cycle: u64) -> usize
        ensures { result ≡ length (acts_at cycle self.now) }
    {
        let named = named(self.timed_acts.as_slice(), cycle);
        if named.is_empty() { USUAL } else { named.len() }
    }

    /// No line names this cycle, so it has the usual six acts.
    pub fn is_usual(&self, cycle: u64) -> bool
        ensures { result ≡ has_usual_acts cycle self.now }
    {
        named(self.timed_acts.as_slice(), cycle).is_empty()
    }

    /// An act of a cycle, by its place, which counts from 0. Its numbers are within their ranges.
    pub fn act(&self, cycle: u64, i: usize) -> Act
        requires { i < length (acts_at cycle self.now) }
        ensures value { slice_get (acts_at cycle self.now) i ≡ Some result }
        ensures within { IsWithin result }
    {
        let named = named(self.timed_acts.as_slice(), cycle);
        if named.is_empty() {
            usual(i)
        } else {
            act_at(named, i)
        }
    }
}

impl Script {
    /// A script that names no cycle.
    pub(crate) fn new(alloc: Global) -> Script
        ensures { result ≡ [] }
    {
        Script {
            timed_acts: Vec::new(alloc),
        }
    }

    /// Adds the acts of an instruction whose cycle isn't before those that are there.
    pub(crate) fn enter(&mut self, instruction: Instruction) -> Result<(), AllocError>
        requires order { All (λ earlier. earlier.cycle ≤ instruction.cycle) self.old }
        requires within { IsGiven instruction.acts }
        ensures ok { OnOk result (self.new ≡ self.old ++ timed_acts_of instruction) }
    {
        let Instruction { cycle, acts } = instruction;
        match acts {
            Acts::Usual => self.push_usual(cycle),
            Acts::One(act) => self.push(TimedAct { cycle, act }),
        }
    }

    /// Adds the usual acts of a cycle that isn't before those that are there.
    fn push_usual(&mut self, cycle: u64) -> Result<(), AllocError>
        requires order { All (λ earlier. earlier.cycle ≤ cycle) self.old }
        ensures ok { OnOk result (self.new ≡ self.old ++ timed_acts_with cycle usual_acts) }
    {
        for i in 0..USUAL {
            self.push(TimedAct {
                cycle,
                act: usual(i),
            })?;
        }
        Ok(())
    }

    /// Adds an act of a cycle that isn't before those that are there.
    fn push(&mut self, timed_act: TimedAct) -> Result<(), AllocError>
        requires order { All (λ earlier. earlier.cycle ≤ timed_act.cycle) self.old }
        requires within { IsWithin timed_act.act }
        ensures ok { OnOk result (self.new ≡ self.old ++ timed_act ∷ []) }
    {
        self.timed_acts.push(timed_act)?;
        Ok(())
    }
}

/// The timed acts of a cycle.
fn named(timed_acts: &[TimedAct], cycle: u64) -> &[TimedAct]
    requires { IsNonDecreasingBy (λ (timed_act : TimedAct). timed_act.cycle) timed_acts.now }
    ensures { result.now ≡ filter (λ timed_act. timed_act.cycle == cycle) timed_acts.now }
{
    let (start, end) = span(timed_acts, cycle);
    &timed_acts[start..end]
}

/// Where the timed acts of a cycle begin and end.
fn span(timed_acts: &[TimedAct], cycle: u64) -> (usize, usize)
    requires { IsNonDecreasingBy (λ (timed_act : TimedAct). timed_act.cycle) timed_acts.now }
    ensures order { result.0 ≤ result.1 }
    ensures bound { result.1 ≤ length timed_acts.now }
    ensures timed_acts { take (result.1 - result.0) (drop result.0 timed_acts.now)
        ≡ filter (λ timed_act. timed_act.cycle == cycle) timed_acts.now }
{
    (
        count_before(timed_acts, cycle),
        count_through(timed_acts, cycle),
    )
}

/// How many timed acts are before a cycle.
fn count_before(timed_acts: &[TimedAct], cycle: u64) -> usize
    requires { IsNonDecreasingBy (λ (timed_act : TimedAct). timed_act.cycle) timed_acts.now }
    ensures bound { result ≤ length timed_acts.now }
    ensures below { AllWithin (λ timed_act. timed_act.cycle < cycle) timed_acts.now 0 result }
    ensures rest { AllWithin
        (λ timed_act. cycle ≤ timed_act.cycle) timed_acts.now result (length timed_acts.now) }
{
    timed_acts.partition_point(|timed_act| timed_act.cycle < cycle)
}

/// How many timed acts are not after a cycle.
fn count_through(timed_acts: &[TimedAct], cycle: u64) -> usize
    requires { IsNonDecreasingBy (λ (timed_act : TimedAct). timed_act.cycle) timed_acts.now }
    ensures bound { result ≤ length timed_acts.now }
    ensures below { AllWithin (λ timed_act. timed_act.cycle ≤ cycle) timed_acts.now 0 result }
    ensures rest { AllWithin
        (λ timed_act. cycle < timed_act.cycle) timed_acts.now result (length timed_acts.now) }
{
    timed_acts.partition_point(|timed_act| timed_act.cycle <= cycle)
}

/// The act of an timed act, by its place.
fn act_at(timed_acts: &[TimedAct], i: usize) -> Act
    requires place { i < length timed_acts.now }
    requires within { All (λ timed_act. IsWithin timed_act.act) timed_acts.now }
    ensures value { slice_get (map (λ (timed_act : TimedAct). timed_act.act) timed_acts.now) i
        ≡ Some result }
    ensures within { IsWithin result }
{
    timed_acts[i].act.copy()
}
