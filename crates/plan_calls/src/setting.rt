// 01, "Messages" and "Plan book": storing an accepted 5F 14 or 5F 15. Everything is checked before the first octet is written.
ghost use Rattle.std.specs.Prelude.{◌≡◌, ◌+◌, ◌*◌, ◌≤◌, length};
ghost use Rattle.octets.specs.declared.refusal.Refusal.TheVariants.{Disagree};
ghost use Rattle.message.specs.Reader.{reading_of};
ghost use Rattle.record.specs.Record.{record_len, book_len, plans_most, k_of};
ghost use Rattle.plan.specs.Setting.{Times14, Plan15, count_in, times_record, ready_record, making_of, times_field, times_made, ready_made, set_answer, SetLeaves, kept_as, other_code, set_times_of, set_plan_of};
ghost use Rattle.plan_calls.specs.Setting.{set_read};

use crate::book;
use message::{Fault, Message};
use message_calls::reader;
use octets::refusal::Refusal;
use record::{BOOK_LEN, RECORD_LEN};

// The fields that a refusal of a 5F 14 names: the first maximum and red man.
const MAXIMUM: u16 = 4;

const RED_MAN: u16 = 8;

// The fields of a phase.
const PHASE_FIELDS: u16 = 6;

// The places of the values that are read: each field up to the count of a 5F 15 has one octet, so that it stands at the same place
// of the octets. Behind the count come greens, cycle and offset.
const DIRECT_AT: usize = message::DIRECT as usize - 1;

const COUNT_AT: usize = message::PLAN_COUNT as usize - 1;

const GREENS_AT: usize = COUNT_AT + 1;

// What is refused before a record is made: of the first two no field is named.
const BOOK_WRONG: Fault = Fault {
    refusal: Refusal::BookWrong,
    field: 0,
};

const CODE_NOT_HANDLED: Fault = Fault {
    refusal: Refusal::CodeNotHandled,
    field: 0,
};

const NOT_READY: Fault = Fault {
    refusal: Refusal::NotReady,
    field: message::PLAN,
};

// The message 5F 14 that INFO holds: its times become the record of its plan.
pub fn set_times(book: &mut [u8], info: &[u8]) -> Result<(), Fault>
    ensures { SetLeaves (set_times_of book.old info.now) (set_answer result) book.new }
{
    let m = read_set(book.len(), info, message::SET_TIMES)?;
    let plan = octets::low(m.values[message::PLAN_AT]);
    keep(book, plan, made_times(octets::body(info)))
}

// The message 5F 15 that INFO holds: it makes its plan ready.
pub fn set_plan(book: &mut [u8], info: &[u8]) -> Result<(), Fault>
    ensures { SetLeaves (set_plan_of book.old info.now) (set_answer result) book.new }
{
    let m = read_set(book.len(), info, message::SET_PLAN)?;
    let plan = octets::low(m.values[message::PLAN_AT]);
    let count = octets::low(m.values[COUNT_AT]);
    let made = made_ready(book::record_in(book, plan), octets::body(info), count);
    keep(book, plan, made)
}

// Is the code there, and another?
fn other_code(info: &[u8], code: u16) -> bool
    ensures { result ≡ other_code code info.now }
{
    octets::CODE_LEN <= info.len() && octets::word_at(info, 0) != code
}

// What is read of any set: refused are a book of another length, a message of another code, and what the message reader refuses.
#[tactic(auto, unfolding(crate::specs::Setting::set_read))]
fn read_set(len: usize, info: &[u8], code: u16) -> Result<Message, Fault>
    ensures { reading_of result ≡ set_read len code info.now }
{
    if len != BOOK_LEN {
        return Err(BOOK_WRONG);
    }
    if other_code(info, code) {
        return Err(CODE_NOT_HANDLED);
    }
    reader::read(info)
}

// The checks that fail name a field.
fn disagree(field: u8) -> Fault
    ensures { result ≡ record { refusal = Disagree; field = field } }
{
    Fault {
        refusal: Refusal::Disagree,
        field,
    }
}

// The agreement of a 5F 14: phase by phase, maximum with minimum, then walk flash and red man with minimum.
fn made_times(body: &[u8]) -> Result<[u8; RECORD_LEN], Fault>
    requires { Times14 body.now }
    ensures { making_of result ≡ times_made body.now }
{
    let n = checks::times_disagree(body);
    if n != 0 {
        return Err(disagree(times_field(n)));
    }
    Ok(times_record(body))
}

// The field that a check of the times names.
#[tactic(auto, unfolding(plan::specs::Setting::times_field))]
fn times_field(n: u16) -> u8
    requires { (1 ≤ n) × (n ≤ 16) }
    ensures { result ≡ times_field n }
{
    let first = if (n - 1) % 2 == 0 { MAXIMUM } else { RED_MAN };
    (first + PHASE_FIELDS * ((n - 1) / 2)) as u8
}

// The agreement of a 5F 15 with this count: with the stored times first, then that of the record that it makes.
fn made_ready(old: &[u8], body: &[u8], count: u8) -> Result<[u8; RECORD_LEN], Fault>
    requires { (length old.now ≡ record_len) × (Plan15 body.now) × (count ≡ count_in body.now) }
    ensures { making_of result ≡ ready_made old.now body.now }
{
    if checks::standing(old) == record::EMPTY {
        return Err(NOT_READY);
    }
    if count != record::count(old) {
        return Err(disagree(message::PLAN_COUNT));
    }
    let rec = ready_record(old, body);
    let n = checks::plan_disagree(&rec);
    if n != 0 {
        return Err(disagree(n as u8 + message::PLAN_COUNT - 1));
    }
    Ok(rec)
}

// The record of a 5F 14, which has its count and its times where a record has them: no greens.
fn times_record(body: &[u8]) -> [u8; RECORD_LEN]
    requires { (1 ≤ length body.now) × (length body.now ≤ record_len) }
    ensures { result ≡ times_record body.now }
{
    let mut rec = [0u8; RECORD_LEN];
    rec[record::STATE] = record::TIMES_SET;
    octets::put(&body[record::COUNT..], &mut rec, record::COUNT);
    rec
}

// The record of a 5F 15 over the times that are stored.
fn ready_record(old: &[u8], body: &[u8]) -> [u8; RECORD_LEN]
    requires { (length old.now ≡ record_len) × (k_of old.now ≤ 8) × (length body.now ≡ 8 + 2 * k_of old.now) }
    ensures { result ≡ ready_record old.now body.now }
{
    let mut made = [0u8; RECORD_LEN];
    made[record::STATE] = record::READY;
    let end = record::times_end(old);
    let p = octets::put(&old[record::COUNT..end], &mut made, record::COUNT);
    let q = octets::put(&body[DIRECT_AT..COUNT_AT], &mut made, p);
    octets::put(&body[GREENS_AT..], &mut made, q);
    made
}

// What is made goes into its place; where nothing is made, nothing is written.
#[tactic(auto, unfolding(plan::specs::Setting::kept_as))]
fn keep(book: &mut [u8], plan: u8, made: Result<[u8; RECORD_LEN], Fault>) -> Result<(), Fault>
    requires { (length book.old ≡ book_len) × (1 ≤ plan) × (plan ≤ plans_most) }
    ensures { SetLeaves (kept_as plan (making_of made) book.old) (set_answer result) book.new }
{
    let rec = made?;
    octets::put(&rec, book, book::start(plan));
    Ok(())
}
