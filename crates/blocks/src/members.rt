// The block `member`.
ghost use Rattle.std.specs.Prelude.{◌≡◌, IfOk};
ghost use Rattle.blocks.specs.Members.{member_key_word, member_has, MemberKept, MemberTakes, SidesSaid, member_of, marked};
ghost use Rattle.texts.specs.Lines.{rest};
ghost use Rattle.texts.specs.Words.{Named};

use rules::{Axis, Field, Force, Mark, Member, Span, Species};
use texts::{Draft, Expected, Fault, Finish, Line, Value, Word};

#[derive(Clone, Copy)]
pub enum MemberKey {
    Force,
    Normal,
    Parallel,
    Specified,
    Cross,
    Theta,
    Rho,
    Sigma,
    Depth,
    Species,
    Grain,
    Interface,
    Field,
    Marks,
}

// Something of each side of a field.
#[derive(Clone, Copy)]
pub struct Sides<T> {
    pub x0: T,
    pub x1: T,
    pub y0: T,
    pub y1: T,
}

// What the lines of the block have said so far.
#[derive(Clone, Copy, Default)]
pub struct MemberDraft {
    pub force: Option<Force>,
    pub normal: Option<u32>,
    pub parallel: Option<u32>,
    pub specified: Option<u32>,
    pub cross: Option<u32>,
    pub theta: Option<u32>,
    pub rho: Option<u32>,
    pub sigma: Option<u32>,
    pub depth: Option<u32>,
    pub species: Option<Species>,
    pub grain: Option<Axis>,
    pub interface: Option<Axis>,
    pub field: Option<Sides<i32>>,
    pub marks: Option<Sides<Mark>>,
}

impl Value for MemberKey {
    ghost reads = { Named member_key_word };

    fn read(word: &str) -> Option<MemberKey> {
        match word {
            "force" => Some(MemberKey::Force),
            "normal" => Some(MemberKey::Normal),
            "parallel" => Some(MemberKey::Parallel),
            "specified" => Some(MemberKey::Specified),
            "cross" => Some(MemberKey::Cross),
            "theta" => Some(MemberKey::Theta),
            "rho" => Some(MemberKey::Rho),
            "sigma" => Some(MemberKey::Sigma),
            "depth" => Some(MemberKey::Depth),
            "species" => Some(MemberKey::Species),
            "grain" => Some(MemberKey::Grain),
            "interface" => Some(MemberKey::Interface),
            "field" => Some(MemberKey::Field),
            "marks" => Some(MemberKey::Marks),
            _ => None,
        }
    }

    fn expected() -> Expected {
        Expected::KeyOf {
            block: "member",
            keys: "force, normal, parallel, specified, cross, theta, rho, sigma, depth, species, grain, interface, field or marks",
        }
    }
}

impl Word for MemberKey {
    ghost word = { member_key_word };

    fn word(self) -> &'static str {
        match self {
            MemberKey::Force => "force",
            MemberKey::Normal => "normal",
            MemberKey::Parallel => "parallel",
            MemberKey::Specified => "specified",
            MemberKey::Cross => "cross",
            MemberKey::Theta => "theta",
            MemberKey::Rho => "rho",
            MemberKey::Sigma => "sigma",
            MemberKey::Depth => "depth",
            MemberKey::Species => "species",
            MemberKey::Grain => "grain",
            MemberKey::Interface => "interface",
            MemberKey::Field => "field",
            MemberKey::Marks => "marks",
        }
    }
}

impl Draft for MemberDraft {
    type Key = MemberKey;

    ghost has = { member_has };

    ghost kept = { MemberKept };

    ghost takes = { MemberTakes };

    fn has(&self, key: MemberKey) -> bool {
        match key {
            MemberKey::Force => self.force.is_some(),
            MemberKey::Normal => self.normal.is_some(),
            MemberKey::Parallel => self.parallel.is_some(),
            MemberKey::Specified => self.specified.is_some(),
            MemberKey::Cross => self.cross.is_some(),
            MemberKey::Theta => self.theta.is_some(),
            MemberKey::Rho => self.rho.is_some(),
            MemberKey::Sigma => self.sigma.is_some(),
            MemberKey::Depth => self.depth.is_some(),
            MemberKey::Species => self.species.is_some(),
            MemberKey::Grain => self.grain.is_some(),
            MemberKey::Interface => self.interface.is_some(),
            MemberKey::Field => self.field.is_some(),
            MemberKey::Marks => self.marks.is_some(),
        }
    }

    fn set(&mut self, key: MemberKey, line: &mut Line) -> Result<(), Fault> {
        match key {
            MemberKey::Force => self.force = Some(line.value()?),
            MemberKey::Normal => self.normal = Some(line.value()?),
            MemberKey::Parallel => self.parallel = Some(line.value()?),
            MemberKey::Specified => self.specified = Some(line.value()?),
            MemberKey::Cross => self.cross = Some(line.value()?),
            MemberKey::Theta => self.theta = Some(line.value()?),
            MemberKey::Rho => self.rho = Some(line.value()?),
            MemberKey::Sigma => self.sigma = Some(line.value()?),
            MemberKey::Depth => self.depth = Some(line.value()?),
            MemberKey::Species => self.species = Some(line.value()?),
            MemberKey::Grain => self.grain = Some(line.value()?),
            MemberKey::Interface => self.interface = Some(line.value()?),
            MemberKey::Field => self.field = Some(four_sides(line)?),
            MemberKey::Marks => self.marks = Some(four_sides(line)?),
        }
        Ok(())
    }
}

impl Finish for MemberDraft {
    type Whole = Member;

    ghost whole = { member_of };

    // The member, or the first key that it lacks.
    fn finish(self) -> Result<Member, MemberKey> {
        Ok(Member {
            force: self.force.ok_or(MemberKey::Force)?,
            normal: self.normal.ok_or(MemberKey::Normal)?,
            parallel: self.parallel.ok_or(MemberKey::Parallel)?,
            specified: self.specified.ok_or(MemberKey::Specified)?,
            cross: self.cross.ok_or(MemberKey::Cross)?,
            theta: self.theta.ok_or(MemberKey::Theta)?,
            rho: self.rho.ok_or(MemberKey::Rho)?,
            sigma: self.sigma.ok_or(MemberKey::Sigma)?,
            depth: self.depth.ok_or(MemberKey::Depth)?,
            species: self.species.ok_or(MemberKey::Species)?,
            grain: self.grain.ok_or(MemberKey::Grain)?,
            interface: self.interface.ok_or(MemberKey::Interface)?,
            field: marked_field(
                self.field.ok_or(MemberKey::Field)?,
                self.marks.ok_or(MemberKey::Marks)?,
            ),
        })
    }
}

// In the order of the text: x0, x1, y0 and y1.
fn four_sides<T: Value + Drop>(line: &mut Line) -> Result<Sides<T>, Fault>
    ensures { IfOk result (λ s. SidesSaid T.Value.reads (rest line.old) (rest line.new) s) }
{
    Ok(Sides {
        x0: line.value()?,
        x1: line.value()?,
        y0: line.value()?,
        y1: line.value()?,
    })
}

// The field of these sides, each with its mark.
fn marked_field(at: Sides<i32>, marks: Sides<Mark>) -> Field
    ensures { result ≡ marked at marks }
{
    Field {
        x: Span {
            low: at.x0,
            high: at.x1,
            low_mark: marks.x0,
            high_mark: marks.x1,
        },
        y: Span {
            low: at.y0,
            high: at.y1,
            low_mark: marks.y0,
            high_mark: marks.y1,
        },
    }
}
