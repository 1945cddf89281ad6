// 01, "Plan book": how a record stands. "Octets that are not such a record, checks included, read as empty."

#![tactic(auto)]

ghost use Rattle.std.specs.Prelude.{◌≡◌, true, ◌+◌, ◌≤◌, ◌<◌, leb, ltb, length, drop, IfSome};
ghost use Rattle.octets.specs.Choice.{pick};
ghost use Rattle.message.specs.Fields.{passes};
ghost use Rattle.record.specs.Record.{record_len, word_at, empty, TimesFit, AllTimesFit};
ghost use Rattle.checks.specs.Standing.{times_disagree, plan_disagree, times_stand, plan_stands, ready_stands, all_zero, Tells, standing_of, check_named};

use message::layout;
use message::layout::{Field, K_MOST};
use message_calls::layout::passes;
use record::{
    ALL_RED, CYCLE_LEN, DIRECT_ORDER_LEN, GREEN_LEN, MAXIMUM, ORDER, RECORD_LEN, RED_MAN,
    WALK_FLASH, YELLOW,
};

// How the octets stand: empty, times set or ready.
pub fn standing(rec: &[u8]) -> u8
    ensures { result ≡ standing_of rec.now }
{
    if rec.len() != RECORD_LEN || !times_stand(rec) {
        return record::EMPTY;
    }
    match rec[record::STATE] {
        record::TIMES_SET if zero_from(rec, record::times_end(rec)) => record::TIMES_SET,
        record::READY if ready_stands(rec) => record::READY,
        _ => record::EMPTY,
    }
}

// "if ready direct, order, 2k green octets, cycle, offset; the rest zero"
fn ready_stands(rec: &[u8]) -> bool
    requires { (length rec.now ≡ record_len) × AllTimesFit rec.now }
    ensures { result ≡ ready_stands rec.now }
{
    plan_stands(rec) && zero_from(rec, record::ready_end(rec))
}

// "the rest zero": the last octet that is not 0 stands before it. Every octet is looked at, and the place after the last that is not 0
// is kept in one octet, so that the compiler looks at many at once.
fn zero_from(rec: &[u8], at: usize) -> bool
    requires { length rec.now ≡ record_len }
    ensures { result ≡ all_zero (drop at rec.now) }
{
    let n = RECORD_LEN as u8;
    let mut end: u8 = 0;
    for i in 0..n {
        if rec[i as usize] != 0 {
            end = i + 1;
        }
    }
    end as usize <= at
}

// "k, the 7k octets of 5F 14": in their ranges, and in agreement
fn times_stand(rec: &[u8]) -> bool
    requires { length rec.now ≡ record_len }
    ensures { result ≡ times_stand rec.now }
{
    let k = record::count(rec);
    if !fits(layout::COUNT, k) {
        return false;
    }
    for i in 0..k {
        if !phase_stands(rec, i) {
            return false;
        }
    }
    true
}

// A phase's times. Every check is made, so that the code has no branch for each.
fn phase_stands(rec: &[u8], i: u8) -> bool
    requires { (length rec.now ≡ record_len) × (i < 8) }
    ensures { Tells result (TimesFit rec.now i) }
{
    let at = record::times_at(i);
    // judged apart, since four octets side by side would be judged by way of the stack
    if !fits(layout::YELLOW, rec[at + YELLOW]) {
        return false;
    }
    let minimum = rec[at];
    let maximum = word(rec, at + MAXIMUM);
    let flash = rec[at + WALK_FLASH];
    let man = rec[at + RED_MAN];
    fits(layout::MINIMUM, minimum)
        & passes(layout::MAXIMUM, maximum)
        & fits(layout::ALL_RED, rec[at + ALL_RED])
        & fits(layout::WALK_FLASH, flash)
        & fits(layout::RED_MAN, man)
        & phase_disagrees(minimum, maximum, flash, man).is_none()
}

// Is the octet in its field's range?
fn fits(f: Field, v: u8) -> bool
    ensures { result ≡ passes f v }
{
    passes(f, u16::from(v))
}

// "Agreement, 5F 14, phase by phase": the first that fails, 1 being "maximum at least minimum" and 2 "walk flash plus red man less
// than minimum".
fn phase_disagrees(minimum: u8, maximum: u16, flash: u8, man: u8) -> Option<u16>
    ensures named { result ≡ check_named (pick (ltb maximum minimum) 1 (pick (leb minimum (flash + man)) 2 0)) }
    ensures most { IfSome result (λ n. n ≤ 2) }
{
    if maximum < u16::from(minimum) {
        return Some(1);
    }
    if u16::from(minimum) <= u16::from(flash) + u16::from(man) {
        return Some(2);
    }
    None
}

// The number in two octets that are there.
fn word(rec: &[u8], at: usize) -> u16
    requires { at + 1 < length rec.now }
    ensures { result ≡ word_at rec.now at }
{
    octets::word(rec[at], rec[at + 1])
}

// "direct, order, 2k green octets, cycle, offset": in their ranges, and in agreement. The order has phases, a green is within its
// phase's bounds and the offset below the cycle, so these are in their ranges too.
fn plan_stands(rec: &[u8]) -> bool
    requires { (length rec.now ≡ record_len) × AllTimesFit rec.now }
    ensures { result ≡ plan_stands rec.now }
{
    let k = rec[record::COUNT];
    let at = record::times_at(k);
    if !fits(layout::DIRECT, rec[at]) {
        return false;
    }
    if !passes(
        layout::CYCLE,
        word(rec, at + DIRECT_ORDER_LEN + GREEN_LEN * k as usize),
    ) {
        return false;
    }
    first_disagreement(rec).is_none()
}

// "count equal .. to the diagram's ..; each green within its phase's bounds; cycle equal to the sum of green, yellow and all-red; offset
// below cycle": the first that fails, from 1.
fn first_disagreement(rec: &[u8]) -> Option<u16>
    requires { record_len ≤ length rec.now }
    ensures { result ≡ check_named (plan_disagree rec.now) }
{
    let k = rec[record::COUNT];
    // no diagram has more phases, and of so many every octet is there
    if (K_MOST as u8) < k {
        return Some(1);
    }
    let at = record::times_at(k);
    let phases = diagram_calls::phases(rec[at + ORDER]);
    if k != phases {
        return Some(1);
    }
    let mut sum: u32 = 0;
    for i in 0..phases {
        let times = record::times_at(i);
        let green = word(rec, at + DIRECT_ORDER_LEN + GREEN_LEN * i as usize);
        if green_fails(green, rec[times], word(rec, times + MAXIMUM)) {
            return Some(i as u16 + 2);
        }
        sum += phase_seconds(green, rec[times + YELLOW], rec[times + ALL_RED]);
    }
    let last = at + DIRECT_ORDER_LEN + GREEN_LEN * phases as usize;
    let cycle = word(rec, last);
    if cycle as u32 != sum {
        return Some(phases as u16 + 2);
    }
    if cycle <= word(rec, last + CYCLE_LEN) {
        return Some(phases as u16 + 3);
    }
    None
}

fn green_fails(green: u16, minimum: u8, maximum: u16) -> bool
    ensures { result ≡ pick (ltb green minimum) true (ltb maximum green) }
{
    !(u16::from(minimum)..=maximum).contains(&green)
}

// "the sum of green, yellow and all-red", of one phase
fn phase_seconds(green: u16, yellow: u8, all_red: u8) -> u32
    ensures { (result ≡ green + yellow + all_red) × (result < 66046) }
{
    u32::from(green) + u32::from(yellow) + u32::from(all_red)
}

// The first check of the times that fails, from 1; 0 where none does. There may be any octets here: those that are missing are 0.
pub fn times_disagree(rec: &[u8]) -> u16
    ensures { result ≡ times_disagree rec.now }
{
    let k = record::count(rec);
    for i in 0..k {
        let first = phase_disagrees(
            record::minimum(rec, i),
            record::maximum(rec, i),
            record::walk_flash(rec, i),
            record::red_man(rec, i),
        );
        if let Some(n) = first {
            return 2 * i as u16 + n;
        }
    }
    0
}

// The first check of the rest that fails, from 1; 0 where none does. Octets that are missing are 0.
pub fn plan_disagree(rec: &[u8]) -> u16
    ensures { result ≡ plan_disagree rec.now }
{
    if RECORD_LEN <= rec.len() {
        return first_disagreement(rec).unwrap_or(0);
    }
    let mut whole = [0u8; RECORD_LEN];
    octets::put(rec, &mut whole, 0);
    first_disagreement(&whole).unwrap_or(0)
}
