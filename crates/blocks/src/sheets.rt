// The block `web`, the sheet of a web joint: its keys are those of every sheet.
ghost use Rattle.std.specs.Prelude.{◌≡◌, IfOk};
ghost use Rattle.blocks.specs.Sheets.{sheet_key_word, sheet_has, SheetKept, SheetTakes, TriedSaid, sheet_of};
ghost use Rattle.texts.specs.Lines.{rest};
ghost use Rattle.texts.specs.Words.{Named};

use joints::Sheet;
use plates::{Plate, Turning};
use rules::{Area, Conditions, Duration, Service, Turnings};
use texts::{Draft, Expected, Fault, Finish, Found, Line, Value, Word};

#[derive(Clone, Copy)]
pub enum SheetKey {
    Members,
    Truss,
    Duration,
    Service,
    Area,
    Turnings,
    Try,
}

// The plate that the verdict is asked of, and how it lies.
#[derive(Clone, Copy)]
pub struct Tried {
    pub plate: Plate,
    pub turning: Turning,
}

// What the lines of the block have said so far.
#[derive(Clone, Copy, Default)]
pub struct SheetDraft {
    // the first member and their count
    pub members: Option<[u32; 2]>,
    pub truss: Option<u32>,
    pub duration: Option<Duration>,
    pub service: Option<Service>,
    pub area: Option<Area>,
    pub turnings: Option<Turnings>,
    pub tried: Option<Tried>,
}

impl Value for SheetKey {
    ghost reads = { Named sheet_key_word };

    fn read(word: &str) -> Option<SheetKey> {
        match word {
            "members" => Some(SheetKey::Members),
            "truss" => Some(SheetKey::Truss),
            "duration" => Some(SheetKey::Duration),
            "service" => Some(SheetKey::Service),
            "area" => Some(SheetKey::Area),
            "turnings" => Some(SheetKey::Turnings),
            "try" => Some(SheetKey::Try),
            _ => None,
        }
    }

    fn expected() -> Expected {
        Expected::KeyOf {
            block: "web",
            keys: "members, truss, duration, service, area, turnings or try",
        }
    }
}

impl Word for SheetKey {
    ghost word = { sheet_key_word };

    fn word(self) -> &'static str {
        match self {
            SheetKey::Members => "members",
            SheetKey::Truss => "truss",
            SheetKey::Duration => "duration",
            SheetKey::Service => "service",
            SheetKey::Area => "area",
            SheetKey::Turnings => "turnings",
            SheetKey::Try => "try",
        }
    }
}

impl Draft for SheetDraft {
    type Key = SheetKey;

    ghost has = { sheet_has };

    ghost kept = { SheetKept };

    ghost takes = { SheetTakes };

    fn has(&self, key: SheetKey) -> bool {
        match key {
            SheetKey::Members => self.members.is_some(),
            SheetKey::Truss => self.truss.is_some(),
            SheetKey::Duration => self.duration.is_some(),
            SheetKey::Service => self.service.is_some(),
            SheetKey::Area => self.area.is_some(),
            SheetKey::Turnings => self.turnings.is_some(),
            SheetKey::Try => self.tried.is_some(),
        }
    }

    fn set(&mut self, key: SheetKey, line: &mut Line) -> Result<(), Fault> {
        match key {
            SheetKey::Members => self.members = Some(line.numbers()?),
            SheetKey::Truss => self.truss = Some(line.value()?),
            SheetKey::Duration => self.duration = Some(line.value()?),
            SheetKey::Service => self.service = Some(line.value()?),
            SheetKey::Area => self.area = Some(line.value()?),
            SheetKey::Turnings => self.turnings = Some(line.value()?),
            SheetKey::Try => self.tried = Some(tried_plate(line)?),
        }
        Ok(())
    }
}

impl Finish for SheetDraft {
    type Whole = Sheet;

    ghost whole = { sheet_of };

    // The sheet, or the first key that it lacks. It may lack a plate to try.
    fn finish(self) -> Result<Sheet, SheetKey> {
        let [first, count] = self.members.ok_or(SheetKey::Members)?;
        let conditions = Conditions {
            truss: self.truss.ok_or(SheetKey::Truss)?,
            duration: self.duration.ok_or(SheetKey::Duration)?,
            service: self.service.ok_or(SheetKey::Service)?,
            area: self.area.ok_or(SheetKey::Area)?,
            turnings: self.turnings.ok_or(SheetKey::Turnings)?,
        };
        Ok(Sheet {
            first: first as usize,
            count: count as usize,
            conditions,
        })
    }
}

// In the order of the text: width, length, family and turning.
fn tried_plate(line: &mut Line) -> Result<Tried, Fault>
    ensures { IfOk result (λ t. TriedSaid (rest line.old) (rest line.new) t) }
{
    let [width, length, family] = line.numbers::<3>()?;
    let Some(plate) = Plate::new(width, length, family) else {
        return Err(line.fault(Found::Numbers([width, length, family]), Expected::Plate));
    };
    Ok(Tried {
        plate,
        turning: line.value()?,
    })
}
