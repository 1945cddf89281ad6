// 01, "Plan book": what stands where in a record.

#![tactic(auto)]

ghost use Rattle.std.specs.Prelude.{◌≡◌, ◌+◌, ◌*◌, ◌<◌};
ghost use Rattle.record.specs.Record.{state_of, k_of, yellow_of, all_red_of, walk_flash_of, red_man_of, minimum_of, maximum_of, direct_of, order_of, green_of, cycle_of, offset_of, octet_at, times_at, times_end, greens_at, ready_end};

pub const RECORD_LEN: usize = 80;

pub const PLANS_MOST: u8 = 48;

pub const BOOK_LEN: usize = RECORD_LEN * PLANS_MOST as usize;

// Where the state and k stand; the times of the phases follow.
pub const STATE: usize = 0;

pub const COUNT: usize = 1;

pub const HEAD_LEN: usize = 2;

// The octets of a phase's times, and of its green.
pub const TIMES_LEN: usize = 7;

pub const GREEN_LEN: usize = 2;

// The states of a record; octets that are none read as empty.
pub const EMPTY: u8 = 0;

pub const TIMES_SET: u8 = 1;

pub const READY: u8 = 2;

pub fn state(rec: &[u8]) -> u8
    ensures { result ≡ state_of rec.now }
{
    octets::octet_at(rec, STATE)
}

// The count k.
pub fn count(rec: &[u8]) -> u8
    ensures { result ≡ k_of rec.now }
{
    octets::octet_at(rec, COUNT)
}

// Where each of a phase's times stands among them.
pub const MINIMUM: usize = 0;

pub const MAXIMUM: usize = 1;

pub const YELLOW: usize = 3;

pub const ALL_RED: usize = 4;

pub const WALK_FLASH: usize = 5;

pub const RED_MAN: usize = 6;

// Direct and order, before the greens; the cycle's octets, between the greens and the offset.
pub const ORDER: usize = 1;

pub const DIRECT_ORDER_LEN: usize = 2;

pub const CYCLE_LEN: usize = 2;

const OFFSET_LEN: usize = 2;

// Where the times of a phase stand, phases counted from 0.
pub fn times_at(i: u8) -> usize
    ensures { result ≡ 2 + 7 * i }
{
    HEAD_LEN + TIMES_LEN * usize::from(i)
}

// An octet of a phase's times.
fn phase_octet<const AT: usize>(rec: &[u8], i: u8) -> u8
    requires { AT < 7 }
    ensures { result ≡ octet_at rec.now (times_at i + AT) }
{
    octets::octet_at(rec, times_at(i) + AT)
}

// The times of a phase.
pub fn minimum(rec: &[u8], i: u8) -> u8
    ensures { result ≡ minimum_of rec.now i }
{
    phase_octet::<MINIMUM>(rec, i)
}

pub fn maximum(rec: &[u8], i: u8) -> u16
    ensures { result ≡ maximum_of rec.now i }
{
    octets::word_at(rec, times_at(i) + MAXIMUM)
}

pub fn yellow(rec: &[u8], i: u8) -> u8
    ensures { result ≡ yellow_of rec.now i }
{
    phase_octet::<YELLOW>(rec, i)
}

pub fn all_red(rec: &[u8], i: u8) -> u8
    ensures { result ≡ all_red_of rec.now i }
{
    phase_octet::<ALL_RED>(rec, i)
}

pub fn walk_flash(rec: &[u8], i: u8) -> u8
    ensures { result ≡ walk_flash_of rec.now i }
{
    phase_octet::<WALK_FLASH>(rec, i)
}

pub fn red_man(rec: &[u8], i: u8) -> u8
    ensures { result ≡ red_man_of rec.now i }
{
    phase_octet::<RED_MAN>(rec, i)
}

// Where the green of a phase stands; behind the last the cycle does, and then the offset.
fn green_at(rec: &[u8], i: u8) -> usize
    ensures { (result ≡ greens_at rec.now + 2 * i) × (result < 4096) }
{
    times_at(count(rec)) + DIRECT_ORDER_LEN + GREEN_LEN * usize::from(i)
}

fn cycle_at(rec: &[u8]) -> usize
    ensures { (result ≡ greens_at rec.now + 2 * k_of rec.now) × (result < 4096) }
{
    green_at(rec, count(rec))
}

// What follows the times of all k phases.
pub fn direct(rec: &[u8]) -> u8
    ensures { result ≡ direct_of rec.now }
{
    octets::octet_at(rec, times_at(count(rec)))
}

pub fn order(rec: &[u8]) -> u8
    ensures { result ≡ order_of rec.now }
{
    octets::octet_at(rec, times_at(count(rec)) + ORDER)
}

pub fn green(rec: &[u8], i: u8) -> u16
    ensures { result ≡ green_of rec.now i }
{
    octets::word_at(rec, green_at(rec, i))
}

pub fn cycle(rec: &[u8]) -> u16
    ensures { result ≡ cycle_of rec.now }
{
    octets::word_at(rec, cycle_at(rec))
}

pub fn offset(rec: &[u8]) -> u16
    ensures { result ≡ offset_of rec.now }
{
    octets::word_at(rec, cycle_at(rec) + CYCLE_LEN)
}

// Where the times end, where the greens begin, and where the offset ends.
pub fn times_end(rec: &[u8]) -> usize
    ensures { result ≡ times_end rec.now }
{
    times_at(count(rec))
}

pub fn greens_at(rec: &[u8]) -> usize
    ensures { result ≡ greens_at rec.now }
{
    green_at(rec, 0)
}

pub fn ready_end(rec: &[u8]) -> usize
    ensures { result ≡ ready_end rec.now }
{
    cycle_at(rec) + CYCLE_LEN + OFFSET_LEN
}
