// What a designer writes down: cards, members and the conditions of a sheet. The numbers are as
// the caller wrote them; whether they lie in their ranges is found before a clause is read. So no
// type here carries its ranges: the functions that compute with the numbers ask for them.

// Four tooth or slip values in kPa for a pair of plates. In `p` the load runs along the grain,
// in `q` across it; `p` and `q` are for load along the plate axis, `pt` and `qt` transverse to it.
#[derive(Clone, Copy)]
pub struct Lateral {
    pub p: u32,
    pub q: u32,
    pub pt: u32,
    pub qt: u32,
}

// A family's card: the tested values of a pair of its plates.
#[derive(Clone, Copy)]
pub struct Card {
    pub teeth: Lateral,
    pub slip: Lateral,
    // tensile values along and across the plate axis, N/mm
    pub t0: u32,
    pub t90: u32,
    // shear values at 0, 30, 60, 90, 120 and 150 degrees, N/mm
    pub shear: [u32; 6],
    // tooth length, mm
    pub tooth: u32,
}

#[derive(Clone, Copy, PartialEq, Eq, Debug)]
pub enum Force {
    Tension,
    Compression,
}

#[derive(Clone, Copy, PartialEq, Eq, Debug)]
pub enum Species {
    SprucePineFir,
    DouglasFirLarch,
}

#[derive(Clone, Copy, PartialEq, Eq, Debug)]
pub enum Axis {
    X,
    Y,
}

// How a side of a field is marked: inside the wood, at an edge of it, or at its end.
#[derive(Clone, Copy, PartialEq, Eq, Debug)]
pub enum Mark {
    Plain,
    Edge,
    End,
}

// A field from `low` to `high` along one axis, in signed mm from the joint mark.
#[derive(Clone, Copy)]
pub struct Span {
    pub low: i32,
    pub high: i32,
    pub low_mark: Mark,
    pub high_mark: Mark,
}

// The upright rectangle that the detailer draws inside a member.
#[derive(Clone, Copy)]
pub struct Field {
    pub x: Span,
    pub y: Span,
}

#[derive(Clone, Copy)]
pub struct Member {
    pub force: Force,
    // factored load normal to the interface with the joint (N), and along it (P)
    pub normal: u32,
    pub parallel: u32,
    // specified load (S)
    pub specified: u32,
    // factored load across the grain (Q)
    pub cross: u32,
    // load to grain (θ), load to axis of an unturned plate (ρ), plate axis to shear (σ)
    pub theta: u32,
    pub rho: u32,
    pub sigma: u32,
    pub depth: u32,
    pub species: Species,
    pub grain: Axis,
    pub interface: Axis,
    pub field: Field,
}

#[derive(Clone, Copy, PartialEq, Eq, Debug)]
pub enum Duration {
    Permanent,
    Standard,
    Short,
}

#[derive(Clone, Copy, PartialEq, Eq, Debug)]
pub enum Service {
    SeasonedDry,
    UnseasonedDry,
    Wet,
}

#[derive(Clone, Copy, PartialEq, Eq, Debug)]
pub enum Area {
    Net,
    Gross,
}

// The turnings that a sheet allows.
#[derive(Clone, Copy, PartialEq, Eq, Debug)]
pub enum Turnings {
    UnturnedOnly,
    TurnedOnly,
    Either,
}

// What every kind of sheet says of its joint.
#[derive(Clone, Copy)]
pub struct Conditions {
    // truss length, mm
    pub truss: u32,
    pub duration: Duration,
    pub service: Service,
    pub area: Area,
    pub turnings: Turnings,
}
