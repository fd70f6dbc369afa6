// Each value of a text in its place.
use jobs::{Format, read};
use joints::AnySheet;
use plates::Turning;
use rules::{Area, Axis, Duration, FactorRule, Force, Mark, Service, Species, Turnings};
use std::test::Fail;
use supplies::Layer;

const TEXT: &str = "
card
  tooth 17
  shear 11 12 13 14 15 16 # in N/mm
  tension 9 10
  slip 5 6 7 8
\tteeth 1 2 3 4
member
  marks plain edge end plain
  field -1 2 -2147483648 2147483647
  interface y
  grain x
  species douglas
  depth 28
  sigma 27
  rho 26
  theta 25
  cross 24
  specified 23
  parallel 22
  normal 4294967295
  force compression

web
  turnings turned
  area gross
  service unseasoned
  duration short
  truss 31
  members 32 33
  try 20 1000 15 turned
web
  members 0 1
  truss 007
  duration permanent
  service wet
  area net
  turnings unturned
heel
  try 76 100 0 unturned
  slope 5 12
  members 3 4
  truss 51
  duration standard
  service dry
  area net
  turnings either
  rule formula
heel
  slope 1 2
  members 3 4
  truss 51
  duration standard
  service dry
  area net
  turnings either
splice
  members 5 2
  truss 61
  duration standard
  service dry
  area gross
  turnings either
  wood 62
  moment 63
press
  length 82
  width 81
strike
  places 91 92 0
list
  plate 41 42 43
  plate 0 0 99
press
  width 1
  length 2
";

const COIL: &str = "coil
  widths 11 12
  family 13
  steps 14
  step 15
  first 16
strike
  places
";

#[test]
fn cards(rt: HostRuntime) -> Result<(), Fail> {
    let job = read(rt.alloc(), Format::Whole, TEXT)?;
    assert!(rt; job.cards.len() == 1);
    let card = job.cards[0];
    let teeth = card.teeth;
    let slip = card.slip;
    assert_eq!(rt; [teeth.p, teeth.q, teeth.pt, teeth.qt], [1, 2, 3, 4]);
    assert_eq!(rt; [slip.p, slip.q, slip.pt, slip.qt], [5, 6, 7, 8]);
    assert_eq!(rt; [card.t0, card.t90], [9, 10]);
    assert_eq!(rt; card.shear, [11, 12, 13, 14, 15, 16]);
    assert_eq!(rt; card.tooth, 17);
    Ok(())
}

#[test]
fn members(rt: HostRuntime) -> Result<(), Fail> {
    let job = read(rt.alloc(), Format::Whole, TEXT)?;
    assert!(rt; job.members.len() == 1);
    let m = job.members[0];
    assert!(rt; matches!(m.force, Force::Compression));
    assert_eq!(rt;
        [m.normal, m.parallel, m.specified, m.cross],
        [4294967295, 22, 23, 24]
    );
    assert_eq!(rt; [m.theta, m.rho, m.sigma, m.depth], [25, 26, 27, 28]);
    assert!(rt;
        matches!(
            (m.species, m.grain, m.interface),
            (Species::DouglasFirLarch, Axis::X, Axis::Y)
        )
    );
    let x = m.field.x;
    let y = m.field.y;
    assert_eq!(rt;
        [x.low, x.high, y.low, y.high],
        [-1, 2, -2147483648, 2147483647]
    );
    assert!(rt; matches!((x.low_mark, x.high_mark), (Mark::Plain, Mark::Edge)));
    assert!(rt; matches!((y.low_mark, y.high_mark), (Mark::End, Mark::Plain)));
    Ok(())
}

#[test]
fn webs(rt: HostRuntime) -> Result<(), Fail> {
    let job = read(rt.alloc(), Format::Whole, TEXT)?;
    assert!(rt; job.sheets.len() == 5);
    let entry = job.sheets[0];
    let AnySheet::Web(sheet) = entry.sheet else {
        return Err(Fail::new("no web sheet"));
    };
    let conditions = sheet.conditions;
    assert_eq!(rt; [entry.line, sheet.first, sheet.count], [24, 32, 33]);
    assert_eq!(rt; conditions.truss, 31);
    assert!(rt;
        matches!(
            (conditions.duration, conditions.service),
            (Duration::Short, Service::UnseasonedDry)
        )
    );
    assert!(rt;
        matches!(
            (conditions.area, conditions.turnings),
            (Area::Gross, Turnings::TurnedOnly)
        )
    );
    let Some(tried) = entry.tried else {
        return Err(Fail::new("no plate to try"));
    };
    let plate = tried.plate;
    assert_eq!(rt;
        [plate.width(), plate.length(), plate.family()],
        [20, 1000, 15]
    );
    assert!(rt; matches!(tried.turning, Turning::Turned));
    assert!(rt; job.sheets[1].tried.is_none());
    Ok(())
}

#[test]
fn heels(rt: HostRuntime) -> Result<(), Fail> {
    let job = read(rt.alloc(), Format::Whole, TEXT)?;
    assert!(rt; job.sheets.len() == 5);
    let AnySheet::Heel(heel) = job.sheets[2].sheet else {
        return Err(Fail::new("no heel sheet"));
    };
    assert_eq!(rt;
        [heel.rise, heel.run, heel.sheet.conditions.truss],
        [5, 12, 51]
    );
    assert_eq!(rt; [heel.sheet.first, heel.sheet.count], [3, 4]);
    assert!(rt; matches!(heel.rule, Some(FactorRule::Formula)));
    assert!(rt; job.sheets[2].tried.is_some());
    let AnySheet::Heel(unsaid) = job.sheets[3].sheet else {
        return Err(Fail::new("no heel sheet"));
    };
    assert!(rt; unsaid.rule.is_none());
    Ok(())
}

#[test]
fn splices(rt: HostRuntime) -> Result<(), Fail> {
    let job = read(rt.alloc(), Format::Whole, TEXT)?;
    assert!(rt; job.sheets.len() == 5);
    let AnySheet::Splice(splice) = job.sheets[4].sheet else {
        return Err(Fail::new("no splice sheet"));
    };
    assert_eq!(rt;
        [splice.wood, splice.moment, splice.sheet.conditions.truss],
        [62, 63, 61]
    );
    Ok(())
}

// In the order of the text.
#[test]
fn layers(rt: HostRuntime) -> Result<(), Fail> {
    let job = read(rt.alloc(), Format::Whole, TEXT)?;
    assert!(rt; job.layers.len() == 3);
    assert!(rt; job.coil.is_none());
    assert!(rt;
        matches!(
            job.layers[0],
            Layer::Press {
                width: 81,
                length: 82
            }
        )
    );
    let Layer::Strike(struck) = job.layers[1] else {
        return Err(Fail::new("no strike list"));
    };
    let places = struck.as_slice();
    assert!(rt; places.len() == 3);
    assert_eq!(rt; [places[0], places[1], places[2]], [91, 92, 0]);
    assert!(rt;
        matches!(
            job.layers[2],
            Layer::Press {
                width: 1,
                length: 2
            }
        )
    );
    Ok(())
}

#[test]
fn coils(rt: HostRuntime) -> Result<(), Fail> {
    let job = read(rt.alloc(), Format::Whole, COIL)?;
    let Some(coil) = job.coil else {
        return Err(Fail::new("no coil"));
    };
    assert_eq!(rt;
        [coil.family, coil.steps, coil.step, coil.first],
        [13, 14, 15, 16]
    );
    let widths = coil.widths.as_slice();
    assert!(rt; widths.len() == 2);
    assert_eq!(rt; [widths[0], widths[1]], [11, 12]);
    assert!(rt; job.layers.len() == 1);
    Ok(())
}

#[test]
fn rows(rt: HostRuntime) -> Result<(), Fail> {
    let job = read(rt.alloc(), Format::Whole, TEXT)?;
    assert!(rt; job.rows.len() == 2);
    let row = job.rows[0];
    assert_eq!(rt; [row.width, row.length, row.family], [41, 42, 43]);
    assert_eq!(rt; job.rows[1].family, 99);
    Ok(())
}
