//! The power of one thread, with a stop and single refusals that are planned ahead.
ghost use Rattle.std.specs.Prelude.{◌≡◌, ◌-◌, ◌<◌, [], ◌∷◌, OnOk, OnErr, not, map, filter};
ghost use Rattle.std.specs.List.{list_any};
ghost use Rattle.cfs_pmem.specs.declared.trace.Asked.TheVariants.{Step, Stopped, Planned, Revived};
ghost use Rattle.cfs_pmem.specs.Meter.{supply_of, plans_after, is_due, counted, is_off, refuses, supply_after, IsMetered};
ghost use Rattle.cfs_pmem.specs.Answered.{metered_prop};

use crate::power::Power;
use crate::trace::{Asked, Trace};
use std::alloc::{AllocError, Global};
use std::mem;

/// Whether a stop is set, and how far off it is.
#[derive(Clone, Copy, Debug, PartialEq, Eq)]
pub enum Supply {
    /// No stop is set.
    Steady,
    /// So many more writing steps pass; the one behind them is the first that is refused.
    Until(u64),
    /// The stop has come: every step is refused.
    Off,
}

/// A refusal of one step of a device: of the one behind the next `passing` steps of this direction.
#[derive(Clone, Copy, Debug, PartialEq, Eq)]
pub struct Plan {
    /// The number of the device.
    pub device: u32,
    /// Whether it speaks of writing steps, or else of reading steps.
    pub writing: bool,
    /// How many such steps pass before it.
    pub passing: u64,
}

/// A power of one thread. It refuses a step only where a stop or a plan says so.
#[derive(Drop)]
pub struct Meter {
    /// Whether a stop or a plan was set since it was last calm. Where none was, a step is one test.
    armed: bool,
    supply: Supply,
    plans: Vec<Plan>,
    trace: Trace,
    pub ghost metered: { IsMetered trace armed supply plans.items } by { metered_prop },
}

impl Supply {
    ghost use Rattle.cfs_pmem.specs.Meter.{supply_after, is_off};

    /// Counts one more step towards the stop.
    #[inline]
    fn pass(&mut self, writing: bool)
        ensures { self.new ≡ supply_after writing self.old }
    {
        if let Supply::Until(passing) = *self
            && writing
        {
            *self = match passing {
                0 => Supply::Off,
                left => Supply::Until(left - 1),
            };
        }
    }

    /// Whether the stop has come.
    #[inline]
    fn is_off(self) -> bool
        ensures { result ≡ is_off self }
    {
        self == Supply::Off
    }
}

impl Plan {
    ghost use Rattle.cfs_pmem.specs.Meter.{counts};

    /// Whether it speaks of steps of this device and direction.
    fn counts(&self, device: u32, writing: bool) -> bool
        ensures { result ≡ counts device writing self.now }
    {
        self.device == device && self.writing == writing
    }

    /// Whether it refuses this step.
    fn is_due(&self, device: u32, writing: bool) -> bool
        ensures { result ≡ is_due device writing self.now }
    {
        self.counts(device, writing) && self.passing == 0
    }

    /// Counts one more step that passes.
    fn count(&mut self, device: u32, writing: bool)
        ensures { self.new ≡ counted device writing self.old }
    {
        if self.counts(device, writing) {
            self.passing = self.passing.saturating_sub(1);
        }
    }
}

/// Drops the plans that refuse this step.
fn drop_due(plans: &mut Vec<Plan>, device: u32, writing: bool)
    ensures { plans.new.items ≡ filter (λ plan. not (is_due device writing plan)) plans.old.items }
{
    plans.retain(|plan| !plan.is_due(device, writing));
}

/// Counts one more step in each plan.
fn count_all(plans: &mut Vec<Plan>, device: u32, writing: bool)
    ensures { plans.new.items ≡ map (counted device writing) plans.old.items }
{
    for plan in plans.iter_mut() {
        plan.count(device, writing);
    }
}

/// Counts one more step in each plan, and drops those that refuse it. Answers whether one does.
fn spend(plans: &mut Vec<Plan>, device: u32, writing: bool) -> bool
    ensures plans { plans.new.items ≡ plans_after device writing plans.old.items }
    ensures refuses { result ≡ list_any (is_due device writing) plans.old.items }
{
    let refuses = plans.iter().any(|plan| plan.is_due(device, writing));
    drop_due(plans, device, writing);
    count_all(plans, device, writing);
    refuses
}

/// Counts one more step towards the stop and in each plan. Answers whether it passes.
#[cold]
#[inline(never)]
fn count(supply: &mut Supply, plans: &mut Vec<Plan>, device: u32, writing: bool) -> bool
    ensures answer { result ≡ not (refuses device writing supply.old plans.old.items) }
    ensures supply { supply.new ≡ supply_after writing supply.old }
    ensures plans { plans.new.items ≡ plans_after device writing plans.old.items }
{
    supply.pass(writing);
    let planned = spend(plans, device, writing);
    !(planned || supply.is_off())
}

impl Meter {
    ghost use Rattle.cfs_pmem.specs.Meters.{asked_of};

    /// A power that refuses nothing until it is told to.
    pub fn calm(alloc: Global) -> Meter
        ensures { asked_of result ≡ [] }
    {
        Meter {
            armed: false,
            supply: Supply::Steady,
            plans: Vec::new(alloc),
            trace: Trace::new(),
        }
    }

    /// Sets the stop, in place of an earlier one: the `n`th writing step from now and all later
    /// steps are refused.
    pub fn stop(&mut self, n: u64)
        requires { 0 < n }
        ensures { asked_of self.new ≡ Stopped n ∷ asked_of self.old }
    {
        self.armed = true;
        self.supply = Supply::Until(n - 1);
        self.trace.push(Asked::Stopped(n));
    }

    /// Plans that the `k`th step from now of this device and direction is refused. Without memory
    /// for the plan nothing is changed.
    pub fn plan(&mut self, device: u32, writing: bool, k: u64) -> Result<(), AllocError>
        requires { 0 < k }
        ensures ok { OnOk result
            (asked_of self.new ≡ Planned device writing k ∷ asked_of self.old) }
        ensures err { OnErr result (asked_of self.new ≡ asked_of self.old) }
    {
        self.plans.push(Plan {
            device,
            writing,
            passing: k - 1,
        })?;
        self.armed = true;
        self.trace.push(Asked::Planned(device, writing, k));
        Ok(())
    }

    /// Ends the stop and all plans. What it was asked so far stays.
    pub fn revive(&mut self)
        ensures { asked_of self.new ≡ Revived ∷ asked_of self.old }
    {
        self.armed = false;
        self.supply = Supply::Steady;
        self.plans.clear();
        self.trace.push(Asked::Revived);
    }

    /// Whether the stop has come.
    pub fn is_off(&self) -> bool
        ensures { result ≡ is_off (supply_of (asked_of self.now)) }
    {
        self.supply.is_off()
    }
}

impl Power for Meter {
    ghost asked = { λ m. m.trace };

    #[inline]
    fn step(&mut self, device: u32, writing: bool) -> bool {
        let mut allowed = true;
        if self.armed {
            // Counted on copies: with no pointer to it handed on, a meter can stand in registers.
            let nothing = Vec::new(*self.plans.allocator());
            let mut plans = mem::replace(&mut self.plans, nothing);
            let mut supply = self.supply;
            allowed = count(&mut supply, &mut plans, device, writing);
            self.supply = supply;
            self.plans = plans;
        }
        self.trace.push(Asked::Step(device, writing, allowed));
        allowed
    }
}
