// The clauses: what each asks of the joint, or of one member under a plate that is laid.
ghost use Rattle.std.specs.Prelude.{◌≡◌, ◌*◌, ◌≤◌};
ghost use Rattle.clauses.specs.Clauses.{laid, allowed, short_teeth, to_axis, to_shear, crosswise, full, counted, bearing, bites, per_mm, holds_cross, crosses, tooth_resistance, capacity, normal_weight, holds_grip, grips, steel, pulls, shears, holds_slip, slips, extends, pull, section, meets};
ghost use Rattle.rules.specs.Ranges.{CardWithin, MemberWithin};
ghost use Rattle.clauses.specs.Within.{SectionWithin, TrialWithin};

use super::splices::Section;
use super::trials::Trial;
use plates::{Clause, Turning};
use rules::{
    Area, Axis, Card, Force, Member, Species, Turnings, along, bite, cut_all, extent, factored,
    full_side, lateral, net_side, service_factor, shearing, tensile,
};

// A: the sheet allows the turning.
pub fn allowed(turnings: Turnings, turning: Turning) -> bool
    ensures { result ≡ allowed turnings turning }
{
    match turnings {
        Turnings::UnturnedOnly => turning == Turning::Unturned,
        Turnings::TurnedOnly => turning == Turning::Turned,
        Turnings::Either => true,
    }
}

// C: the teeth are short enough for members of 38 mm.
pub fn short_teeth(card: &Card) -> bool
    requires { CardWithin card.now }
    ensures { result ≡ short_teeth card.now }
{
    2 * card.tooth <= 38
}

fn crosswise(axis: Axis) -> Axis
    ensures { result ≡ crosswise axis }
{
    match axis {
        Axis::X => Axis::Y,
        Axis::Y => Axis::X,
    }
}

// N for each mm of bite across the grain.
fn per_mm(species: Species) -> u32
    ensures value { result ≡ per_mm species }
    ensures bound { result ≤ 55 }
{
    match species {
        Species::SprucePineFir => 41,
        Species::DouglasFirLarch => 55,
    }
}

pub(crate) fn holds_cross(species: Species, load: u32, depth: u32, side: u32) -> bool
    requires load { load ≤ 200000 }
    requires depth { depth ≤ 286 }
    requires side { side ≤ 1000 }
    ensures { result ≡ holds_cross species load depth side }
{
    load <= 2500 || load - 2500 <= per_mm(species) * side || 3 * depth <= 4 * side
}

// What the teeth hold over that area, in N.
pub(crate) fn capacity(resistance: u32, area: u32) -> u32
    requires resistance { resistance ≤ 20700 }
    requires area { area ≤ 1000000 }
    ensures value { result ≡ capacity resistance area }
    ensures bound { result ≤ 20700000 }
{
    (resistance as u64 * area as u64 / 1000) as u32
}

fn normal_weight(force: Force) -> u64
    ensures value { result ≡ normal_weight force }
    ensures bound { result ≤ 4 }
{
    match force {
        Force::Tension => 4,
        Force::Compression => 1,
    }
}

fn square(x: u32) -> u64
    requires { x ≤ 20700000 }
    ensures value { result ≡ x * x }
    ensures bound { result ≤ 428490000000000 }
{
    x as u64 * x as u64
}

pub(crate) fn holds_grip(force: Force, parallel: u32, normal: u32, capacity: u32) -> bool
    requires parallel { parallel ≤ 200000 }
    requires normal { normal ≤ 200000 }
    requires capacity { capacity ≤ 20700000 }
    ensures { result ≡ holds_grip force parallel normal capacity }
{
    let weighed = normal_weight(force) * square(normal);
    4 * square(parallel) + weighed <= 4 * square(capacity)
}

// The factored resistance of steel of `value` N/mm over `side` mm.
fn steel(value: u32, side: u32) -> u64
    requires value { value ≤ 20000 }
    requires side { side ≤ 1000 }
    ensures { result ≡ steel value side }
{
    60 * value as u64 * side as u64 / 100
}

fn holds_slip(specified: u32, resistance: u32, service: u32, area: u32) -> bool
    requires resistance { resistance ≤ 20000 }
    requires service { service ≤ 100 }
    requires area { area ≤ 1000000 }
    ensures { result ≡ holds_slip specified resistance service area }
{
    specified as u64 <= (resistance * service) as u64 * area as u64 / 100_000
}

// The tension in a member.
fn pull(force: Force, normal: u32) -> u32
    ensures { result ≡ pull force normal }
{
    match force {
        Force::Tension => normal,
        Force::Compression => 0,
    }
}

// A plate that is laid, and a member under it, where the numbers of both lie within their ranges.
#[derive(Clone, Copy)]
struct LaidOver<'a> {
    trial: &'a Trial,
    member: &'a Member,
    ghost trial_within: { TrialWithin trial.now },
    ghost member_within: { MemberWithin member.now },
}

impl LaidOver<'_> {
    // The load's angle to the axis of the plate as it is laid.
    fn to_axis(&self) -> u32
        ensures value { result ≡ to_axis self.now.trial.now.turning self.now.member.now.rho }
        ensures bound { result ≤ 90 }
    {
        match self.trial.turning {
            Turning::Unturned => self.member.rho,
            Turning::Turned => 90 - self.member.rho,
        }
    }

    // The shear's angle to the axis of the plate as it is laid.
    fn to_shear(&self) -> u32
        ensures value { result ≡ to_shear self.now.trial.now.turning self.now.member.now.sigma }
        ensures bound { result ≤ 179 }
    {
        match self.trial.turning {
            Turning::Unturned => self.member.sigma,
            Turning::Turned => (self.member.sigma + 90) % 180,
        }
    }

    // The full side along an axis.
    fn full(&self, axis: Axis) -> u32
        ensures value { result ≡ full (laid self.now.trial.now) self.now.member.now axis }
        ensures bound { result ≤ 1000 }
    {
        let span = along(&self.member.field, axis);
        full_side(&span, extent(&self.trial.plate, self.trial.turning, axis))
    }

    // The side along an axis of the area that the teeth count on.
    fn counted(&self, axis: Axis) -> u32
        ensures value { result ≡ counted self.now.trial.now.conditions.area (laid self.now.trial.now) self.now.member.now axis }
        ensures bound { result ≤ 1000 }
    {
        match self.trial.conditions.area {
            Area::Net => {
                let span = along(&self.member.field, axis);
                let extent = extent(&self.trial.plate, self.trial.turning, axis);
                net_side(&span, self.trial.card.tooth, extent)
            }
            Area::Gross => self.full(axis),
        }
    }

    // The area that the teeth count on, in mm².
    fn bearing(&self) -> u32
        ensures value { result ≡ bearing (laid self.now.trial.now) self.now.member.now }
        ensures bound { result ≤ 1000000 }
    {
        self.counted(Axis::X) * self.counted(Axis::Y)
    }

    // D: both full sides reach the bite.
    fn bites(&self) -> bool
        ensures { result ≡ bites (laid self.now.trial.now) self.now.member.now }
    {
        let least = bite(self.member.depth, self.trial.conditions.truss);
        least <= self.full(Axis::X) && least <= self.full(Axis::Y)
    }

    // The full side across the grain.
    fn across(&self) -> u32
        ensures value { result ≡ full (laid self.now.trial.now) self.now.member.now (crosswise self.now.member.now.grain) }
        ensures bound { result ≤ 1000 }
    {
        self.full(crosswise(self.member.grain))
    }

    // E: the bite across the grain.
    fn crosses(&self) -> bool
        ensures { result ≡ crosses (laid self.now.trial.now) self.now.member.now }
    {
        let member = self.member;
        holds_cross(member.species, member.cross, member.depth, self.across())
    }

    // The factored resistance of the teeth under the member's load, in kPa.
    fn tooth_resistance(&self) -> u32
        ensures value { result ≡ tooth_resistance (laid self.now.trial.now) self.now.member.now }
        ensures bound { result ≤ 20700 }
    {
        let conditions = self.trial.conditions;
        let values = cut_all(conditions.area, self.trial.card.teeth);
        let n = lateral(values, self.member.theta, self.to_axis());
        factored(
            n,
            conditions.duration,
            conditions.service,
            self.trial.factor,
        )
    }

    // F: the resistance of the teeth.
    fn grips(&self) -> bool
        ensures { result ≡ grips (laid self.now.trial.now) self.now.member.now }
    {
        let member = self.member;
        let cap = capacity(self.tooth_resistance(), self.bearing());
        holds_grip(member.force, member.parallel, member.normal, cap)
    }

    // G: the steel takes the normal load of a member in tension.
    fn pulls(&self) -> bool
        ensures { result ≡ pulls (laid self.now.trial.now) self.now.member.now self.now.member.now.force }
    {
        match self.member.force {
            Force::Tension => {
                let t = tensile(&self.trial.card, self.to_axis());
                self.member.normal as u64 <= steel(t, self.full(self.member.interface))
            }
            Force::Compression => true,
        }
    }

    // H: the steel takes the load along the interface.
    fn shears(&self) -> bool
        ensures { result ≡ shears (laid self.now.trial.now) self.now.member.now }
    {
        let v = shearing(&self.trial.card, self.to_shear());
        self.member.parallel as u64 <= steel(v, self.full(self.member.interface))
    }

    // I: the slip resistance takes the specified load.
    fn slips(&self) -> bool
        ensures { result ≡ slips (laid self.now.trial.now) self.now.member.now }
    {
        let ns = lateral(self.trial.card.slip, self.member.theta, self.to_axis());
        let service = service_factor(self.trial.conditions.service);
        holds_slip(self.member.specified, ns, service, self.bearing())
    }
}

// J: the plate's extent across the grain is at least 65 percent of the depth.
pub fn extends(trial: &Trial, member: &Member) -> bool
    requires { MemberWithin member.now }
    ensures { result ≡ extends (laid trial.now) member.now }
{
    65 * member.depth <= 100 * extent(&trial.plate, trial.turning, crosswise(member.grain))
}

// The section of a splice through a member.
pub fn section(trial: &Trial, member: &Member, wood: u32) -> Section
    requires trial { TrialWithin trial.now }
    requires member { MemberWithin member.now }
    requires wood_low { 1 ≤ wood }
    requires wood_high { wood ≤ 400 }
    ensures value { result ≡ section (laid trial.now) member.now wood }
    ensures bounds { SectionWithin result }
{
    let over = LaidOver { trial, member };
    Section {
        depth: member.depth,
        wood,
        side: over.across(),
        steel: tensile(&trial.card, over.to_axis()),
        pull: pull(member.force, member.normal),
    }
}

// Whether the member meets the clause; the clauses of the joint as a whole ask nothing of one member.
#[tactic(auto, unfolding(crate::specs::Clauses::meets))]
pub fn meets(clause: Clause, trial: &Trial, member: &Member) -> bool
    requires trial { TrialWithin trial.now }
    requires member { MemberWithin member.now }
    ensures { result ≡ meets clause (laid trial.now) member.now }
{
    let over = LaidOver { trial, member };
    match clause {
        Clause::Bite => over.bites(),
        Clause::CrossGrain => over.crosses(),
        Clause::Grip => over.grips(),
        Clause::Tension => over.pulls(),
        Clause::Shear => over.shears(),
        Clause::Slip => over.slips(),
        _ => true,
    }
}
