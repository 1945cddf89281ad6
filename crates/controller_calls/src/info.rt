// 01, "Messages": the INFO of each reply. 02, E6: it is put into the octets kept, from which its frame is sent and, where that is wanted, sent again.
ghost use Rattle.std.specs.Prelude.{◌≡◌, ◌+◌, ◌≤◌, ◌++◌, length, ◌≢◌};
ghost use Rattle.frame.specs.Frame.{info_most};
ghost use Rattle.record.specs.Record.{empty, ready};
ghost use Rattle.checks.specs.Standing.{standing_of};
ghost use Rattle.plan.specs.Reporting.{times_info, plan_info};
ghost use Rattle.controller.specs.Handling.{answer_info};
ghost use Rattle.controller.specs.Reply.{reply_of};
ghost use Rattle.controller.specs.State.{kept_len};
ghost use Rattle.controller_calls.specs.Handling.{Reportable};
ghost use Rattle.controller_calls.specs.Replies.{ReplyPut};
ghost use Rattle.controller_calls.specs.Sender.{InfoPut};

use controller::{Held, OUT_AT, Reply};
use plan_calls::book;
use record::BOOK_LEN;

// The INFO of a reply; how long it is.
pub(crate) fn put(s: Held, reply: Reply, book: &[u8; BOOK_LEN], kept: &mut [u8]) -> u16
    requires { (Reportable s book.now (reply_of reply)) × (kept_len ≤ length kept.old) }
    ensures { ReplyPut s book.now (reply_of reply) kept.old result kept.new }
{
    let u = s.running;
    let which = u.which;
    match reply {
        Reply::CarriedOut(code) => put_answer(message::CARRIED_OUT, code, &[], kept),
        Reply::Refused(code, why, parameter) => {
            put_answer(message::REFUSED, code, &[why.number(), parameter], kept)
        }
        Reply::Times(plan) => {
            let lent = book::built_in(which);
            let rec = book::plan_part(book, &lent, plan);
            put_times(rec, plan, kept)
        }
        Reply::Plan(plan) => {
            let lent = book::built_in(which);
            let rec = book::plan_part(book, &lent, plan);
            put_plan(rec, plan, message::REPORT_PLAN, kept)
        }
        Reply::Running => put_plan(&u.copy, u.plan, message::REPORT_RUNNING, kept),
    }
}

// 0F 80 and 0F 81, by their own code: "code(2)", and behind it the numbers of a refusal.
fn put_answer(answer: u16, code: u16, numbers: &[u8], kept: &mut [u8]) -> u16
    requires { (length numbers.now ≤ 2) × (kept_len ≤ length kept.old) }
    ensures { InfoPut (answer_info answer code numbers.now) kept.old result kept.new }
{
    let head = [
        octets::high(answer),
        octets::low(answer),
        octets::high(code),
        octets::low(code),
    ];
    put_parts(&head, numbers, kept)
}

// 5F C4: "plan, count k, then k times ..". From the count on it is the record's own octets.
fn put_times(rec: &[u8], plan: u8, kept: &mut [u8]) -> u16
    requires { (standing_of rec.now ≢ empty) × (kept_len ≤ length kept.old) }
    ensures { InfoPut (times_info rec.now plan) kept.old result kept.new }
{
    let head = [
        octets::high(message::REPORT_TIMES),
        octets::low(message::REPORT_TIMES),
        plan,
    ];
    let end = record::times_end(rec);
    put_parts(&head, &rec[record::COUNT..end], kept)
}

// 5F C5 and 5F C8: "plan, direct, phase order, count k, k greens(2), cycle(2), offset(2)". From the greens on it is the record's own octets.
fn put_plan(rec: &[u8], plan: u8, code: u16, kept: &mut [u8]) -> u16
    requires { (standing_of rec.now ≡ ready) × (kept_len ≤ length kept.old) }
    ensures { InfoPut (plan_info rec.now plan code) kept.old result kept.new }
{
    let head = [
        octets::high(code),
        octets::low(code),
        plan,
        record::direct(rec),
        record::order(rec),
        record::count(rec),
    ];
    let greens = record::greens_at(rec);
    let end = record::ready_end(rec);
    put_parts(&head, &rec[greens..end], kept)
}

// INFO in two runs, one behind the other.
fn put_parts(head: &[u8], rest: &[u8], kept: &mut [u8]) -> u16
    requires { (length head.now + length rest.now ≤ info_most) × (kept_len ≤ length kept.old) }
    ensures { InfoPut (head.now ++ rest.now) kept.old result kept.new }
{
    let p = octets::put(head, &mut *kept, OUT_AT);
    octets::put(rest, &mut *kept, p);
    let n = head.len() + rest.len();
    n as u16
}
