// The resistance of the teeth.
ghost use Rattle.std.specs.Prelude.{◌≡◌, ◌≤◌};
ghost use Rattle.rules.specs.Teeth.{at_grain, between, lateral, cut, cut_all, duration_factor, service_factor, factored};
ghost use Rattle.rules.specs.Ranges.{LateralWithin};

use super::sines::square_sine;
use super::terms::{Area, Duration, Lateral, Service};

// A value for load at `theta` to the grain, from `p` along it and `q` across it.
#[tactic(auto, using(crate::proofs::Bounds::inverse_mean), unfolding(crate::specs::Teeth::at_grain))]
pub fn at_grain(p: u32, q: u32, theta: u32) -> u32
    requires p_low { 1 ≤ p }
    requires p_high { p ≤ 20000 }
    requires q_low { 1 ≤ q }
    requires q_high { q ≤ 20000 }
    requires theta { theta ≤ 90 }
    ensures value { result ≡ at_grain p q theta }
    ensures bound { result ≤ 20000 }
{
    let s = square_sine(theta) as u64;
    let c = 10_000 - s;
    let p = p as u64;
    let q = q as u64;
    (p * q * 10_000 / (p * s + q * c)) as u32
}

// The value `part` of `whole` degrees on the way from one value to another.
#[tactic(auto, unfolding(crate::specs::Teeth::between))]
pub fn between(one: u32, other: u32, part: u32, whole: u32) -> u32
    requires one { one ≤ 20000 }
    requires other { other ≤ 20000 }
    requires part { part ≤ whole }
    requires whole_low { 1 ≤ whole }
    requires whole_high { whole ≤ 90 }
    ensures value { result ≡ between one other part whole }
    ensures bound { result ≤ 20000 }
{
    (one * (whole - part) + other * part) / whole
}

// The four values for load at `theta` to the grain and `rho` to the plate axis.
pub fn lateral(v: Lateral, theta: u32, rho: u32) -> u32
    requires values { LateralWithin 1 v }
    requires theta { theta ≤ 90 }
    requires rho { rho ≤ 90 }
    ensures value { result ≡ lateral v theta rho }
    ensures bound { result ≤ 20000 }
{
    let along = at_grain(v.p, v.q, theta);
    let across = at_grain(v.pt, v.qt, theta);
    between(along, across, rho, 90)
}

// On a gross sheet a tooth value is first cut to 80 percent.
pub fn cut(area: Area, v: u32) -> u32
    requires low { 10 ≤ v }
    requires high { v ≤ 20000 }
    ensures value { result ≡ cut area v }
    ensures low { 1 ≤ result }
    ensures high { result ≤ 20000 }
{
    match area {
        Area::Net => v,
        Area::Gross => v * 80 / 100,
    }
}

pub fn cut_all(area: Area, v: Lateral) -> Lateral
    requires { LateralWithin 10 v }
    ensures value { result ≡ cut_all area v }
    ensures bounds { LateralWithin 1 result }
{
    let p = cut(area, v.p);
    let q = cut(area, v.q);
    let pt = cut(area, v.pt);
    let qt = cut(area, v.qt);
    Lateral { p, q, pt, qt }
}

pub fn duration_factor(duration: Duration) -> u32
    ensures value { result ≡ duration_factor duration }
    ensures bound { result ≤ 115 }
{
    match duration {
        Duration::Permanent => 65,
        Duration::Standard => 100,
        Duration::Short => 115,
    }
}

pub fn service_factor(service: Service) -> u32
    ensures value { result ≡ service_factor service }
    ensures bound { result ≤ 100 }
{
    match service {
        Service::SeasonedDry => 100,
        Service::UnseasonedDry => 80,
        Service::Wet => 67,
    }
}

// The factored resistance of the teeth in kPa.
#[tactic(auto, using(crate::proofs::Bounds::factors), unfolding(crate::specs::Teeth::factored))]
pub fn factored(n: u32, duration: Duration, service: Service, factor: u32) -> u32
    requires n { n ≤ 20000 }
    requires factor { factor ≤ 100 }
    ensures value { result ≡ factored n duration service factor }
    ensures bound { result ≤ 20700 }
{
    let kd = duration_factor(duration) as u64;
    let ksf = service_factor(service) as u64;
    (n as u64 * 90 * kd * ksf * factor as u64 / 100_000_000) as u32
}
