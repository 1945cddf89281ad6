// 01, "Lamps and seconds": moving on through a cycle, and the pick at its end.
ghost use Rattle.std.specs.Prelude.{◌≡◌, ◌<◌};
ghost use Rattle.record.specs.Record.{cycle_of};
ghost use Rattle.plan.specs.declared.Which.{Which};
ghost use Rattle.plan.specs.BuiltIn.{built_in};
ghost use Rattle.controller.specs.State.{started_at};
ghost use Rattle.controller.specs.Seconds.{picked_of, moved_on};
ghost use Rattle.controller_calls.specs.Stepper.{RecordOf};

use controller::Running;
use plan::Which;
use plan_calls::book;
use record::{BOOK_LEN, RECORD_LEN};

// A plan at its cycle's start, where plan 0 is the one that is named.
pub(crate) fn started(which: Which, plan: u8, copy: [u8; RECORD_LEN]) -> Running
    ensures { result ≡ started_at which plan copy }
{
    Running {
        which,
        plan,
        position: 0,
        copy,
    }
}

// "then moves on. The call that answers a cycle's last second also picks the next plan".
#[tactic(auto, unfolding(controller::specs::Seconds::moved_on))]
pub(crate) fn moved_on(u: Running, cycle: u16, requested: u8, book: &[u8; BOOK_LEN]) -> Running
    requires { (u.position < 65535) × (cycle ≡ cycle_of u.copy) }
    ensures { result ≡ moved_on u requested book.now }
{
    if u.position + 1 < cycle {
        return Running {
            position: u.position + 1,
            ..u
        };
    }
    picked(u, requested, book)
}

// "the requested one if it is plan 0 or ready in the book; if not, the running plan repeats and the request stays"
fn picked(u: Running, requested: u8, book: &[u8; BOOK_LEN]) -> Running
    ensures { result ≡ picked_of u requested book.now }
{
    let which = u.which;
    let lent = book::built_in(which);
    let rec = record_of(book, &lent, requested);
    // Reading judged it, so it stands as its state says.
    if record::state(rec) == record::READY {
        let copy = rec.try_into().unwrap();
        return started(which, requested, copy);
    }
    started(which, u.plan, u.copy)
}

// The record of a plan: the copy of a built-in one for plan 0, the plan's part of the book for any other.
pub(crate) fn record_of<'a>(book: &'a [u8; BOOK_LEN], copy: &'a [u8], plan: u8) -> &'a [u8]
    requires { (which : Which) × (copy.now ≡ built_in which) }
    ensures { RecordOf copy.now book.now plan result.now }
{
    book::read_plan(book, copy, plan).0
}
