// Each value of a text in its place.
use jobs::{Format, read};
use joints::AnySheet;
use plates::Turning;
use rules::{Area, Axis, Duration, Force, Mark, Service, Species, Turnings};
use std::test::Fail;

const TEXT: &str = "
card
  tooth 17
  shear 11 12 13 14 15 16 # in N/mm
  tension 9 10
  slip 5 6 7 8
\tteeth 1 2 3 4
member
  marks plain edge end plain
  field -1 2 -2147483648 2147483647
  interface y
  grain x
  species douglas
  depth 28
  sigma 27
  rho 26
  theta 25
  cross 24
  specified 23
  parallel 22
  normal 4294967295
  force compression

web
  turnings turned
  area gross
  service unseasoned
  duration short
  truss 31
  members 32 33
  try 20 1000 15 turned
web
  members 0 1
  truss 007
  duration permanent
  service wet
  area net
  turnings unturned
list
  plate 41 42 43
  plate 0 0 99
";

#[test]
fn cards(rt: HostRuntime) -> Result<(), Fail> {
    let job = read(rt.alloc(), Format::Webs, TEXT)?;
    assert!(rt; job.cards.len() == 1);
    let card = job.cards[0];
    let teeth = card.teeth;
    let slip = card.slip;
    assert_eq!(rt; [teeth.p, teeth.q, teeth.pt, teeth.qt], [1, 2, 3, 4]);
    assert_eq!(rt; [slip.p, slip.q, slip.pt, slip.qt], [5, 6, 7, 8]);
    assert_eq!(rt; [card.t0, card.t90], [9, 10]);
    assert_eq!(rt; card.shear, [11, 12, 13, 14, 15, 16]);
    assert_eq!(rt; card.tooth, 17);
    Ok(())
}

#[test]
fn members(rt: HostRuntime) -> Result<(), Fail> {
    let job = read(rt.alloc(), Format::Webs, TEXT)?;
    assert!(rt; job.members.len() == 1);
    let m = job.members[0];
    assert!(rt; matches!(m.force, Force::Compression));
    assert_eq!(rt;
        [m.normal, m.parallel, m.specified, m.cross],
        [4294967295, 22, 23, 24]
    );
    assert_eq!(rt; [m.theta, m.rho, m.sigma, m.depth], [25, 26, 27, 28]);
    assert!(rt;
        matches!(
            (m.species, m.grain, m.interface),
            (Species::DouglasFirLarch, Axis::X, Axis::Y)
        )
    );
    let x = m.field.x;
    let y = m.field.y;
    assert_eq!(rt;
        [x.low, x.high, y.low, y.high],
        [-1, 2, -2147483648, 2147483647]
    );
    assert!(rt; matches!((x.low_mark, x.high_mark), (Mark::Plain, Mark::Edge)));
    assert!(rt; matches!((y.low_mark, y.high_mark), (Mark::End, Mark::Plain)));
    Ok(())
}

#[test]
fn sheets(rt: HostRuntime) -> Result<(), Fail> {
    let job = read(rt.alloc(), Format::Webs, TEXT)?;
    assert!(rt; job.sheets.len() == 2);
    let entry = job.sheets[0];
    let AnySheet::Web(sheet) = entry.sheet else {
        return Err(Fail::new("no web sheet"));
    };
    let conditions = sheet.conditions;
    assert_eq!(rt; [entry.line, sheet.first, sheet.count], [24, 32, 33]);
    assert_eq!(rt; conditions.truss, 31);
    assert!(rt;
        matches!(
            (conditions.duration, conditions.service),
            (Duration::Short, Service::UnseasonedDry)
        )
    );
    assert!(rt;
        matches!(
            (conditions.area, conditions.turnings),
            (Area::Gross, Turnings::TurnedOnly)
        )
    );
    let Some(tried) = entry.tried else {
        return Err(Fail::new("no plate to try"));
    };
    assert_eq!(rt;
        [
            tried.plate.width(),
            tried.plate.length(),
            tried.plate.family(),
        ],
        [20, 1000, 15]
    );
    assert!(rt; matches!(tried.turning, Turning::Turned));
    assert!(rt; job.sheets[1].tried.is_none());
    let AnySheet::Web(second) = job.sheets[1].sheet else {
        return Err(Fail::new("no web sheet"));
    };
    assert_eq!(rt; second.conditions.truss, 7);
    Ok(())
}

#[test]
fn rows(rt: HostRuntime) -> Result<(), Fail> {
    let job = read(rt.alloc(), Format::Webs, TEXT)?;
    assert!(rt; job.rows.len() == 2);
    let row = job.rows[0];
    assert_eq!(rt; [row.width, row.length, row.family], [41, 42, 43]);
    assert_eq!(rt; job.rows[1].family, 99);
    Ok(())
}
