// The grounds on which a joint is turned away, in their order.
ghost use Rattle.std.specs.Prelude.{◌≡◌, ◌+◌, ◌≤◌, true, length, if◌then◌else◌, Ok, Err};
ghost use Rattle.joints.specs.Grounds.{within, truss_ranged, listed, spanned, paired, own, loads_ranged, angles_ranged, depth_listed, span_ranged, member_ranged, lateral_ranged, shear_ranged, card_ranged, read_cards, drawn, numbers_stand, stands};

use super::sheets::{Lists, Sheet};
use plates::Refusal;
use rules::{Card, Lateral, Member, Span};

const MAX_TRUSS: u32 = 30_500;

const MAX_MEMBERS: usize = 6;

const MAX_LOAD: u32 = 200_000;

const MAX_DISTANCE: i32 = 1000;

const DEPTHS: [u32; 7] = [64, 89, 114, 140, 184, 235, 286];

const MAX_STEEL: u32 = 2000;

const MIN_TOOTH_VALUE: u32 = 10;

const MAX_TOOTH_VALUE: u32 = 20_000;

const MAX_TOOTH: u32 = 40;

const FAMILIES: usize = 16;

// A ground that is given, where its test fails.
fn ground(right: bool, refusal: Refusal) -> Result<(), Refusal>
    ensures { result ≡ (if right then Ok tt else Err refusal) }
{
    if right { Ok(()) } else { Err(refusal) }
}

// Ground 1: the truss length.
pub fn truss_ranged(sheet: &Sheet) -> bool
    ensures { result ≡ truss_ranged sheet.now }
{
    (1..=MAX_TRUSS).contains(&sheet.conditions.truss)
}

// Ground 2: the members lie in the caller's list.
fn listed(sheet: &Sheet, list: usize) -> bool
    ensures { result ≡ listed sheet.now list }
{
    sheet.count <= list && sheet.first <= list - sheet.count
}

// Ground 2: and they number one to six.
pub fn spanned(sheet: &Sheet, list: usize) -> bool
    ensures { result ≡ spanned sheet.now list }
{
    (1..=MAX_MEMBERS).contains(&sheet.count) && listed(sheet, list)
}

// Ground 2 for a splice: and they number two.
pub fn paired(sheet: &Sheet, list: usize) -> bool
    ensures { result ≡ paired sheet.now list }
{
    sheet.count == 2 && listed(sheet, list)
}

// The sheet's own members.
pub fn own<'a>(sheet: &Sheet, members: &'a [Member]) -> &'a [Member]
    requires { sheet.now.first + sheet.now.count ≤ length members.now }
    ensures { result.now ≡ own sheet.now members.now }
{
    &members[sheet.first..sheet.first + sheet.count]
}

// Cards past number 15 are not read.
pub fn read_cards(cards: &[Card]) -> &[Card]
    ensures { result.now ≡ read_cards cards.now }
{
    &cards[..cards.len().min(FAMILIES)]
}

fn loads_ranged(m: &Member) -> bool
    ensures { result ≡ loads_ranged m.now }
{
    m.normal <= MAX_LOAD && m.parallel <= MAX_LOAD && m.specified <= MAX_LOAD && m.cross <= MAX_LOAD
}

fn angles_ranged(m: &Member) -> bool
    ensures { result ≡ angles_ranged m.now }
{
    m.theta <= 90 && m.rho <= 90 && m.sigma <= 179
}

fn depth_listed(depth: u32) -> bool
    ensures { result ≡ depth_listed depth }
{
    DEPTHS.contains(&depth)
}

fn span_ranged(span: &Span) -> bool
    ensures { result ≡ span_ranged span.now }
{
    let distances = -MAX_DISTANCE..=MAX_DISTANCE;
    distances.contains(&span.low) && distances.contains(&span.high)
}

#[tactic(auto, unfolding(crate::specs::Grounds::member_ranged))]
fn member_ranged(m: &Member) -> bool
    ensures { result ≡ member_ranged m.now }
{
    loads_ranged(m)
        && angles_ranged(m)
        && depth_listed(m.depth)
        && span_ranged(&m.field.x)
        && span_ranged(&m.field.y)
}

fn lateral_ranged(v: &Lateral) -> bool
    ensures { result ≡ lateral_ranged v.now }
{
    tooth_value_ranged(v.p)
        && tooth_value_ranged(v.q)
        && tooth_value_ranged(v.pt)
        && tooth_value_ranged(v.qt)
}

fn tooth_value_ranged(v: u32) -> bool
    ensures { result ≡ within 10 20000 v }
{
    (MIN_TOOTH_VALUE..=MAX_TOOTH_VALUE).contains(&v)
}

fn steel_ranged(v: u32) -> bool
    ensures { result ≡ within 1 2000 v }
{
    (1..=MAX_STEEL).contains(&v)
}

fn shear_ranged(v: [u32; 6]) -> bool
    ensures { result ≡ shear_ranged v }
{
    v.iter().all(|x| steel_ranged(*x))
}

fn tooth_ranged(v: u32) -> bool
    ensures { result ≡ within 1 40 v }
{
    (1..=MAX_TOOTH).contains(&v)
}

#[tactic(auto, unfolding(crate::specs::Grounds::card_ranged))]
fn card_ranged(c: &Card) -> bool
    ensures { result ≡ card_ranged c.now }
{
    let lateral = lateral_ranged(&c.teeth) && lateral_ranged(&c.slip);
    let tension = steel_ranged(c.t0) && steel_ranged(c.t90);
    lateral && tension && shear_ranged(c.shear) && tooth_ranged(c.tooth)
}

// Ground 4: the field is not empty.
#[tactic(auto, unfolding(crate::specs::Grounds::drawn))]
fn drawn(m: &Member) -> bool
    ensures { result ≡ drawn m.now }
{
    m.field.x.low < m.field.x.high && m.field.y.low < m.field.y.high
}

// Grounds 3 and 4, in their order: the numbers of each member and of each card, and the field of
// each member.
fn numbers_stand(sheet: &Sheet, lists: &Lists) -> Result<(), Refusal>
    requires { sheet.now.first + sheet.now.count ≤ length lists.now.members.now }
    ensures { result ≡ numbers_stand sheet.now.first (own sheet.now lists.now.members.now) (read_cards lists.now.cards.now) }
{
    let first = sheet.first;
    let own = own(sheet, lists.members);
    if let Some(i) = own.iter().position(|m| !member_ranged(m)) {
        return Err(Refusal::MemberNumber { index: first + i });
    }
    if let Some(index) = read_cards(lists.cards).iter().position(|c| !card_ranged(c)) {
        return Err(Refusal::CardNumber { index });
    }
    if let Some(i) = own.iter().position(|m| !drawn(m)) {
        return Err(Refusal::EmptyField { index: first + i });
    }
    Ok(())
}

// The grounds in their order: `right` tells of the sheet's own numbers, `spans` of its members.
pub fn grounds(right: bool, spans: bool, sheet: &Sheet, lists: &Lists) -> Result<(), Refusal>
    requires { spans ≡ true → sheet.now.first + sheet.now.count ≤ length lists.now.members.now }
    ensures { result ≡ stands (record { numbers = right; span = spans; first = sheet.now.first; members = own sheet.now lists.now.members.now; cards = read_cards lists.now.cards.now }) }
{
    ground(right, Refusal::SheetNumber)?;
    ground(spans, Refusal::MemberSpan)?;
    numbers_stand(sheet, lists)
}
