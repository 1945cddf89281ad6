// 01, "Messages": "The controller handles 14, 15, 18, 44, 45, 48": what each does, and which reply it gets.
ghost use Rattle.std.specs.Prelude.{◌≡◌, ◌≤◌, length};
ghost use Rattle.octets.specs.Part.{code_len};
ghost use Rattle.message.specs.Reader.{code_in};
ghost use Rattle.record.specs.Record.{plans_most};
ghost use Rattle.checks.specs.Standing.{standing_of};
ghost use Rattle.controller.specs.State.{plan_record};
ghost use Rattle.controller.specs.Reply.{handled_as};
ghost use Rattle.controller_calls.specs.Handling.{HandledWith, handled_by, done_for, refused_for, DoneIf, Asks};

use controller::{Handled, Held, Reply};
use message::Fault;
use message_calls::reader;
use octets::refusal::Refusal;
use plan::Which;
use plan_calls::{book, setting};
use record::BOOK_LEN;

// 01, "code not handled": no field is named.
const NOT_HANDLED: Fault = Fault {
    refusal: Refusal::CodeNotHandled,
    field: 0,
};

const NOT_READY: Fault = Fault {
    refusal: Refusal::NotReady,
    field: message::PLAN,
};

// The first octet of the codes that are handled, and the second of each.
const CODE_HIGH: u8 = (message::SET_TIMES / 256) as u8;

const SET_TIMES: u8 = (message::SET_TIMES % 256) as u8;

const SET_PLAN: u8 = (message::SET_PLAN % 256) as u8;

const RUN: u8 = (message::RUN % 256) as u8;

const QUERY_TIMES: u8 = (message::QUERY_TIMES % 256) as u8;

const QUERY_PLAN: u8 = (message::QUERY_PLAN % 256) as u8;

const QUERY_RUNNING: u8 = (message::QUERY_RUNNING % 256) as u8;

// The message that INFO holds, carried out or refused.
pub(crate) fn carry_out(s: Held, book: &mut [u8; BOOK_LEN], info: &[u8]) -> Handled
    requires { code_len ≤ length info.now }
    ensures { HandledWith s book.old info.now (handled_as result) book.new }
{
    let code = octets::word(info[0], info[1]);
    match handled(s, code, book, info) {
        Ok(h) => h,
        Err(why) => refused(code, s.requested, why),
    }
}

fn handled(s: Held, code: u16, book: &mut [u8; BOOK_LEN], info: &[u8]) -> Result<Handled, Fault>
    requires { code ≡ code_in info.now }
    ensures { HandledWith s book.old info.now (handled_by code s.requested result) book.new }
{
    if octets::high(code) != CODE_HIGH {
        return Err(NOT_HANDLED);
    }
    let done = accepted(s.requested, Reply::CarriedOut(code));
    let second = octets::low(code);
    match second {
        SET_TIMES => {
            setting::set_times(book, info)?;
            Ok(done)
        }
        SET_PLAN => {
            setting::set_plan(book, info)?;
            Ok(done)
        }
        RUN | QUERY_TIMES | QUERY_PLAN | QUERY_RUNNING => asked(s, code, second, book, info),
        _ => Err(NOT_HANDLED),
    }
}

// A message that leaves the book, of this code with this second octet: read, and then by what was read.
fn asked(
    s: Held,
    code: u16,
    second: u8,
    book: &[u8; BOOK_LEN],
    info: &[u8],
) -> Result<Handled, Fault>
    requires { (code ≡ code_in info.now) × Asks code second }
    ensures { HandledWith s book.now info.now (handled_by code s.requested result) book.now }
{
    let m = reader::read(info)?;
    let plan = octets::low(m.values[message::PLAN_AT]);
    let which = s.running.which;
    match second {
        // "5F 18 notes the requested plan."
        RUN => {
            let ready = standing(which, book, plan) == record::READY;
            done_if(ready, accepted(plan, Reply::CarriedOut(code)))
        }
        QUERY_TIMES => {
            let set = standing(which, book, plan) != record::EMPTY;
            done_if(set, accepted(s.requested, Reply::Times(plan)))
        }
        QUERY_PLAN => {
            let ready = standing(which, book, plan) == record::READY;
            done_if(ready, accepted(s.requested, Reply::Plan(plan)))
        }
        _ => Ok(accepted(s.requested, Reply::Running)),
    }
}

// What is asked of a plan, where its record stands as it must.
fn done_if(stands: bool, h: Handled) -> Result<Handled, Fault>
    ensures { DoneIf stands (handled_as h) result }
{
    if stands { Ok(h) } else { Err(NOT_READY) }
}

fn accepted(requested: u8, reply: Reply) -> Handled
    ensures { result ≡ done_for requested reply }
{
    Handled {
        refusal: None,
        parameter: 0,
        requested,
        reply,
    }
}

fn refused(code: u16, requested: u8, why: Fault) -> Handled
    ensures { result ≡ refused_for code requested why }
{
    Handled {
        refusal: Some(why.refusal),
        parameter: why.field,
        requested,
        reply: Reply::Refused(code, why.refusal, why.field),
    }
}

// How the record of a plan stands, plan 0's too.
fn standing(which: Which, book: &[u8; BOOK_LEN], plan: u8) -> u8
    requires { plan ≤ plans_most }
    ensures { result ≡ standing_of (plan_record which book.now plan) }
{
    let lent = book::built_in(which);
    let rec = book::plan_part(book, &lent, plan);
    checks::standing(rec)
}
