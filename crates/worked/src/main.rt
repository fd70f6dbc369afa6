// Runs the joints worked by hand and prints each with its result.
#![tactic(auto)]

use clauses::{
    WorkedHeels, WorkedLimits, WorkedSplice, WorkedTeeth, worked_heels, worked_limits,
    worked_splice, worked_teeth,
};
use std::io;

fn print_teeth(rt: &HostRuntime, teeth: WorkedTeeth) -> io::Result<()> {
    let WorkedTeeth {
        along,
        across,
        n,
        resistance,
        capacity,
    } = teeth;
    println!(rt; "teeth, load at 30 degrees to the grain")?;
    println!(rt; "  along the plate axis, p 2000, q 1500: {along} kPa")?;
    println!(rt; "  across the plate axis, p 1800, q 1400: {across} kPa")?;
    println!(rt; "  at 45 degrees to the plate axis: {n} kPa")?;
    println!(rt; "  factored, every factor 1.00: {resistance} kPa")?;
    println!(rt; "  over 76 x 50 mm: {capacity} N")
}

fn word(holds: bool) -> &'static str {
    if holds { "holds" } else { "misses" }
}

fn print_limit(rt: &HostRuntime, what: &str, limits: (bool, bool)) -> io::Result<()> {
    let at = word(limits.0);
    let beyond = word(limits.1);
    println!(rt; "  {what}: {at}, {beyond}")
}

fn print_limits(rt: &HostRuntime, limits: WorkedLimits) -> io::Result<()> {
    println!(rt; "clauses at their limit and beyond it")?;
    print_limit(rt, "F, tension of 6026 N and 6027 N", limits.tension)?;
    print_limit(
        rt,
        "F, compression of 12052 N and 12053 N",
        limits.compression,
    )?;
    print_limit(
        rt,
        "E, 5000 N across spruce of depth 140, sides of 61 mm and 60 mm",
        limits.cross,
    )
}

fn print_slope(rt: &HostRuntime, slope: &str, factors: (u32, u32)) -> io::Result<()> {
    let (table, formula) = factors;
    println!(rt; "  {slope}: {table} by table, {formula} by formula")
}

fn print_heels(rt: &HostRuntime, heels: WorkedHeels) -> io::Result<()> {
    println!(rt; "heel factors in hundredths")?;
    print_slope(rt, "1/4", heels.quarter)?;
    print_slope(rt, "5/12", heels.five_twelfths)?;
    print_slope(rt, "47/100", heels.steep)
}

fn print_splice(rt: &HostRuntime, splice: WorkedSplice) -> io::Result<()> {
    let axis = splice.axis;
    println!(rt; "splice, 200 N/mm over 76 mm, depth 89, wood 11.5 MPa, tension 5000 N")?;
    println!(rt; "  neutral axis: {axis} hundredths of a mm")?;
    print_limit(
        rt,
        "K, moments of 117118 N mm and 117119 N mm",
        splice.moment,
    )
}

fn main(rt: HostRuntime) -> io::Result<()> {
    print_teeth(&rt, worked_teeth())?;
    print_limits(&rt, worked_limits())?;
    print_heels(&rt, worked_heels())?;
    print_splice(&rt, worked_splice())
}
