// Trying a plate on a lawful joint: the clauses A to I, in order, each over all members before the
// next.
ghost use Rattle.std.specs.Prelude.{◌≡◌, ◌+◌, ◌≤◌, length, Ok, IfSome};
ghost use Rattle.std.specs.List.{All};
ghost use Rattle.plates.specs.Size.{size};
ghost use Rattle.plates.specs.declared.verdicts.Verdict.TheVariants.{Misses};
ghost use Rattle.clauses.specs.Clauses.{laid, meets};
ghost use Rattle.rules.specs.Ranges.{CardWithin, MemberWithin};
ghost use Rattle.clauses.specs.Within.{TrialWithin};
ghost use Rattle.joints.specs.Grounds.{own, read_cards, numbers_stand};
ghost use Rattle.joints.specs.Scan.{first_failing};
ghost use Rattle.joints.specs.Verdict.{first_missed};
ghost use Rattle.joints.specs.Checks.{card_of, member_clauses, each_of, checks};

use super::grounds::{own, read_cards};
use super::sheets::{Lists, Sheet};
use clauses::{Trial, allowed, meets, short_teeth};
use plates::{Clause, Plate, Turning, Verdict};
use rules::{Card, Conditions, Member};

// Off the heel the moment factor is 100.
pub const OFF_HEEL: u32 = 100;

// What is asked of each member: the clauses D to I, in order.
fn member_clauses() -> [Clause; 6]
    ensures { result ≡ member_clauses }
{
    [
        Clause::Bite,
        Clause::CrossGrain,
        Clause::Grip,
        Clause::Tension,
        Clause::Shear,
        Clause::Slip,
    ]
}

// A clause of the joint as a whole is missed.
pub fn missed(clause: Clause) -> Verdict
    ensures { result ≡ Misses clause 0 }
{
    Verdict::Misses { clause, member: 0 }
}

// What a lawful joint gives its clauses: its own members and the cards that are read.
#[derive(Clone, Copy)]
pub struct Lawful<'a> {
    pub own: &'a [Member],
    cards: &'a [Card],
    ghost few: { length own.now ≤ 6 },
    ghost ranged: { All MemberWithin own.now },
    ghost carded: { All CardWithin cards.now },
}

impl<'a> Lawful<'a> {
    pub fn new(sheet: &Sheet, lists: &Lists<'a>) -> Self
        requires few { sheet.now.count ≤ 6 }
        requires listed { sheet.now.first + sheet.now.count ≤ length lists.now.members.now }
        requires stand { numbers_stand sheet.now.first (own sheet.now lists.now.members.now) (read_cards lists.now.cards.now) ≡ Ok tt }
        ensures own { result.own.now ≡ own sheet.now lists.now.members.now }
        ensures cards { result.cards.now ≡ read_cards lists.now.cards.now }
    {
        Lawful {
            own: own(sheet, lists.members),
            cards: read_cards(lists.cards),
        }
    }

    // The family's card.
    pub fn card(&self, family: u32) -> Option<Card>
        ensures card { result ≡ card_of self.now.cards.now family }
        ensures within { IfSome result CardWithin }
    {
        self.cards.get(family as usize).copied()
    }

    // The first member that misses the clause, counted from 1.
    fn first_missing(&self, clause: Clause, trial: &Trial) -> Option<usize>
        requires { TrialWithin trial.now }
        ensures { result ≡ first_failing (meets clause (laid trial.now)) 1 self.now.own.now }
    {
        self.own
            .iter()
            .position(|m| !meets(clause, trial, m))
            .map(|i| 1 + i)
    }

    // The first of the member clauses that is missed, with its first member. `find_map` with
    // 'passes' for none would say the early end the other way round.
    fn members_verdict(&self, trial: &Trial) -> Verdict
        requires { TrialWithin trial.now }
        ensures { result ≡ first_missed (each_of member_clauses (laid trial.now)) self.now.own.now }
    {
        for clause in member_clauses() {
            if let Some(member) = self.first_missing(clause, trial) {
                return Verdict::Misses { clause, member };
            }
        }
        Verdict::Passes
    }

    // The verdict of the clauses A to I on one plate in one turning.
    #[inline(always)]
    pub fn tried(
        &self,
        conditions: &Conditions,
        factor: u32,
        plate: Plate,
        turning: Turning,
    ) -> Verdict
        requires { factor ≤ 100 }
        ensures { result ≡ first_missed (checks conditions.now factor (card_of self.now.cards.now (size plate).family) (size plate) turning) self.now.own.now }
    {
        if !allowed(conditions.turnings, turning) {
            return missed(Clause::Turning);
        }
        let Some(card) = self.card(plate.family()) else {
            return missed(Clause::Card);
        };
        if !short_teeth(&card) {
            return missed(Clause::Teeth);
        }
        self.members_verdict(&Trial {
            conditions: *conditions,
            factor,
            card,
            plate,
            turning,
        })
    }
}
