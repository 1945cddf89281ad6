// 01, "Plan book", and 02, E1: plan 0, and reading a plan.
ghost use Rattle.std.specs.Prelude.{◌≡◌, ◌≤◌, eqb, leb, length};
ghost use Rattle.octets.specs.Choice.{pick, both};
ghost use Rattle.octets.specs.Part.{PartOf};
ghost use Rattle.octets.specs.Refusals.{told_number};
ghost use Rattle.octets.specs.Same.{same};
ghost use Rattle.record.specs.Record.{record_len, book_len, plans_most};
ghost use Rattle.plan.specs.BuiltIn.{built_in_green, built_in_cycle, built_in};
ghost use Rattle.plan.specs.Reading.{record_start, record_at, either_built_in, read_refusal, PlanRead};
ghost use Rattle.checks.specs.Standing.{standing_of};

use octets::refusal::Refusal;
use plan::Which;
use record::{BOOK_LEN, PLANS_MOST, RECORD_LEN};

// Plan 0: how many phases, and the times of each.
const BUILT_IN_K: u8 = 2;

const BUILT_IN_TIMES: [u8; 7] = [10, 0, 90, 3, 2, 5, 2];

// "green 35 in each phase and cycle 80, the rest as before".
const NEW_GREEN: u8 = 35;

const NEW_CYCLE: u8 = 80;

const OLD_GREEN: u8 = 25;

const OLD_CYCLE: u8 = 60;

// The built-in record, the new one or the old.
pub fn built_in(which: Which) -> [u8; RECORD_LEN]
    ensures { result ≡ built_in which }
{
    let (green, cycle) = green_and_cycle(which);
    let mut rec = [0u8; RECORD_LEN];
    rec[record::STATE] = record::READY;
    rec[record::COUNT] = BUILT_IN_K;
    let p = octets::put(&BUILT_IN_TIMES, &mut rec, record::HEAD_LEN);
    let q = octets::put(&BUILT_IN_TIMES, &mut rec, p);
    // direct, order, both greens, cycle, offset
    octets::put(&[0, 0, 0, green, 0, green, 0, cycle, 0, 0], &mut rec, q);
    rec
}

fn green_and_cycle(which: Which) -> (u8, u8)
    ensures { (result.0 ≡ built_in_green which) × (result.1 ≡ built_in_cycle which) }
{
    match which {
        Which::New => (NEW_GREEN, NEW_CYCLE),
        Which::Old => (OLD_GREEN, OLD_CYCLE),
    }
}

// Where the record of a plan starts in the book.
pub(crate) fn start(plan: u8) -> usize
    requires { (1 ≤ plan) × (plan ≤ plans_most) }
    ensures { (result ≡ record_start plan) × (result ≤ 3760) }
{
    RECORD_LEN * (plan as usize - 1)
}

// The record of a plan in the book.
pub(crate) fn record_in<'a>(book: &'a [u8], plan: u8) -> &'a [u8]
    requires { (length book.now ≡ book_len) × (1 ≤ plan) × (plan ≤ plans_most) }
    ensures { PartOf book.entry (record_start plan) record_len result }
{
    let at = start(plan);
    &book[at..at + RECORD_LEN]
}

// The record of a plan: all of the copy of a built-in record for plan 0, the plan's part of the book for any other. Where that
// is refused, the refusal stands beside it and the part is empty.
pub fn read_plan<'a>(book: &'a [u8], copy: &'a [u8], plan: u8) -> (&'a [u8], Option<Refusal>)
    ensures { PlanRead book.entry copy.entry plan result.0 (told_number result.1) }
{
    match read_refusal(book, copy, plan) {
        None => (plan_part(book, copy, plan), None),
        why => (&copy[..0], why),
    }
}

// The octets that a plan's record has, whatever they are: all of the copy for plan 0, the plan's part of the book for any other, and
// an empty part where there is none.
pub fn plan_part<'a>(book: &'a [u8], copy: &'a [u8], plan: u8) -> &'a [u8]
    ensures { pick (both (eqb (length book.now) book_len) (leb plan plans_most)) (pick (eqb plan 0) (PartOf copy.entry 0 (length copy.now) result) (PartOf book.entry (record_start plan) record_len result)) (PartOf copy.entry 0 0 result) }
{
    if book.len() != BOOK_LEN || PLANS_MOST < plan {
        return &copy[..0];
    }
    if plan == 0 {
        return copy;
    }
    record_in(book, plan)
}

// Why a plan is not read, if it is not.
#[tactic(auto, unfolding(plan::specs::Reading::read_refusal))]
fn read_refusal(book: &[u8], copy: &[u8], plan: u8) -> Option<Refusal>
    ensures { told_number result ≡ read_refusal book.now copy.now plan }
{
    if book.len() != BOOK_LEN || copy.len() != RECORD_LEN {
        return Some(Refusal::BookWrong);
    }
    if PLANS_MOST < plan {
        return Some(Refusal::OutOfRange);
    }
    let stands = if plan == 0 {
        either_built_in(copy)
    } else {
        checks::standing(record_in(book, plan)) != record::EMPTY
    };
    if stands {
        None
    } else {
        Some(Refusal::NotReady)
    }
}

// "reading a plan takes a copy of either".
#[tactic(auto, unfolding(plan::specs::Reading::either_built_in))]
fn either_built_in(copy: &[u8]) -> bool
    ensures { result ≡ either_built_in copy.now }
{
    is_built_in(copy, Which::New) || is_built_in(copy, Which::Old)
}

// Are the octets this built-in record?
pub fn is_built_in(rec: &[u8], which: Which) -> bool
    ensures { result ≡ same rec.now (built_in which) }
{
    match <&[u8; RECORD_LEN]>::try_from(rec) {
        Ok(rec) => matches(rec, which),
        Err(_) => false,
    }
}

// Every octet is compared, also past the first that differs: so the compiler compares many at once, in place. `==` of arrays is a call.
fn matches(copy: &[u8; RECORD_LEN], which: Which) -> bool
    ensures { result ≡ same copy.now (built_in which) }
{
    let rec = built_in(which);
    let mut alike = true;
    for i in 0..RECORD_LEN {
        if copy[i] != rec[i] {
            alike = false;
        }
    }
    alike
}
