// 01, "Replies" and "Lamps and seconds": the controller's calls. A call is refused by the first of 7, 8 and 9 that it
// can meet, or done; 02, E6: an offer by the first of 7, 4, 9 and 15.

#![tactic(auto)]

mod frame_out;
mod handling;
mod incoming;
mod info;
mod memory;
mod replies;
mod soundness;
mod stepper;

ghost use Rattle.std.specs.Prelude.{◌≡◌, ◌<◌};
ghost use Rattle.controller.specs.State.{joined};
ghost use Rattle.controller.specs.Replies.{answer_with, CallLeaves, octet_of, line_idle_of};
ghost use Rattle.controller.specs.Offers.{OfferLeaves, offer_of};
ghost use Rattle.controller.specs.Seconds.{started_of, plain_start_of, old_start_of, StartsWith, shown_with, second_of};
ghost use Rattle.controller_calls.specs.Held.{held_tells, tells_dropped, held_quiet, held_dark, held_shown};

use controller::{
    ALL, Event, Held, HeldAnswer, HeldShown, Link, NONE_ACCEPTED, NONE_OUT, OUT_AT, OUTPUT_LEN,
    Out, Told, Turn,
};
use frame_calls::{decoder, receiver, writer};
use lamps::NO_ROW;
use octets::refusal::Refusal;
use plan::Which;
use plan_calls::book;
use record::BOOK_LEN;

// "A fresh start runs and requests plan 0 at position 0."; 02, E1: "the plain start takes the new one"; E6: `wait` is the T "given at the start".
pub fn fresh(own: u16, wait: u8) -> HeldAnswer
    ensures { StartsWith (plain_start_of own wait) result }
{
    fresh_with(Which::New, own, wait)
}

// "A start call that names the old built-in plan stays".
pub fn fresh_old(own: u16, wait: u8) -> HeldAnswer
    ensures { StartsWith (old_start_of own wait) result }
{
    fresh_with(Which::Old, own, wait)
}

#[tactic(auto, unfolding(controller::specs::Seconds::started_of, controller::specs::State::fresh_of, frame::specs::Dropped::fresh_receiver))]
fn fresh_with(which: Which, own: u16, wait: u8) -> HeldAnswer
    ensures { StartsWith (started_of which own wait) result }
{
    let running = stepper::started(which, 0, book::built_in(which));
    let state = Held {
        own,
        seq: 0,
        requested: 0,
        wait,
        receiver: receiver::fresh(),
        last: NONE_ACCEPTED,
        out: NONE_OUT,
        running,
    };
    if own == ALL {
        return quiet(state, Refusal::StartWrong);
    }
    if !frame_out::wait_stands(wait) {
        return quiet(state, Refusal::WaitWrong);
    }
    HeldAnswer {
        state,
        told: tells(None),
    }
}

// Takes one octet from the line; the first 768 of `kept` are the state's octets of INFO. What it ends is carried out on the book and
// replied to in the output.
pub fn octet(mut s: Held, kept: &mut [u8], book: &mut [u8], out: &mut [u8], b: u8) -> HeldAnswer
    ensures { CallLeaves (octet_of (joined s kept.old) book.old out.old b) kept.old result kept.new book.new out.new }
{
    if !soundness::stands(s, kept.len()) {
        return quiet(s, Refusal::StateUnsound);
    }
    let Some(book) = book.as_mut_array() else {
        return quiet(s, Refusal::BookWrong);
    };
    if out.len() < OUTPUT_LEN {
        return quiet(s, Refusal::OutputShort);
    }
    let r = s.receiver;
    let h = r.head;
    // These two are answered at once, with the state as it stands.
    if decoder::idle_drops(h, b) {
        let receiver = replies::one_dropped(r);
        s.receiver = receiver;
        return HeldAnswer {
            state: s,
            told: tells_dropped(receiver.dropped),
        };
    }
    if decoder::info_goes_on(h, b) {
        let receiver = replies::info_kept(r, kept, b);
        s.receiver = receiver;
        return HeldAnswer {
            state: s,
            told: tells_dropped(receiver.dropped),
        };
    }
    replies::taken(s, kept, book, out, b)
}

// "A line-idle call, made by the host, returns the decoder to idle and changes nothing else."; 02, E5: it counts what it abandons, and tells the number.
pub fn line_idle(s: Held, kept: &[u8]) -> HeldAnswer
    ensures { answer_with result kept.now ≡ line_idle_of (joined s kept.now) }
{
    if !soundness::stands(s, kept.len()) {
        return quiet(s, Refusal::StateUnsound);
    }
    let t = receiver::line_idle(s.receiver, kept);
    HeldAnswer {
        state: Held {
            receiver: t.receiver,
            ..s
        },
        told: tells_dropped(t.dropped),
    }
}

// What this second shows; then it moves on, and at a cycle's last second picks the next plan from the book. 02, E6: the frame out goes again, or ends as
// down, where its T seconds are over.
pub fn second(s: Held, kept: &[u8], book: &[u8], out: &mut [u8]) -> HeldShown
    ensures { shown_with result kept.now out.new ≡ second_of (joined s kept.now) book.now out.old }
{
    if !soundness::stands(s, kept.len()) {
        return dark(s, Refusal::StateUnsound);
    }
    let Some(book) = book.as_array() else {
        return dark(s, Refusal::BookWrong);
    };
    if out.len() < OUTPUT_LEN {
        return dark(s, Refusal::OutputShort);
    }
    let turn = frame_out::passed(s.wait, s.out);
    let count = frame_out::resend(s, turn.link, kept, out);
    shown(s, book, turn, count)
}

// A second that is accepted shows its lamps whatever becomes of the frame out, which takes this turn with so many octets written.
fn shown(s: Held, book: &[u8; BOOK_LEN], turn: Turn, count: usize) -> HeldShown
    requires { s.running.position < 65535 }
    ensures { result ≡ held_shown s book.now turn count }
{
    let u = s.running;
    let running = stepper::moved_on(u, record::cycle(&u.copy), s.requested, book);
    let row = lamps_calls::row_at(&u.copy, u.position);
    HeldShown {
        state: Held {
            out: turn.out,
            running,
            ..s
        },
        told: Told {
            count,
            link: turn.link,
            ..tells(None)
        },
        plan: u.plan,
        row,
    }
}

// 02, E6: the host's own message, by its INFO, for the sender: "A frame offered while one is out is refused and the one out is untouched."
pub fn offer(s: Held, kept: &mut [u8], info: &[u8], out: &mut [u8]) -> HeldAnswer
    ensures { OfferLeaves (offer_of (joined s kept.old) info.now out.old) kept.old result kept.new out.new }
{
    if !soundness::stands(s, kept.len()) {
        return quiet(s, Refusal::StateUnsound);
    }
    if let Some(why) = writer::refuses_message(info, out, 0) {
        return quiet(s, why);
    }
    if s.out.len != 0 {
        return quiet(s, Refusal::SenderBusy);
    }
    octets::put(info, &mut *kept, OUT_AT);
    let count = writer::write_message(s.seq, s.own, info, out, 0).unwrap();
    HeldAnswer {
        state: Held {
            seq: s.seq.wrapping_add(1),
            out: Out {
                sends: 1,
                waited: 0,
                len: info.len() as u16,
            },
            ..s
        },
        told: Told {
            count,
            ..tells(None)
        },
    }
}

// "Other numbers in a refused call's result are 0."
fn tells(refusal: Option<Refusal>) -> Told
    ensures { result ≡ held_tells refusal }
{
    Told {
        refusal,
        parameter: 0,
        event: Event::Nothing,
        count: 0,
        dropped: 0,
        link: Link::Still,
    }
}

// Nothing refused and nothing written, and so many octets dropped.
pub(crate) fn tells_dropped(dropped: u16) -> Told
    ensures { result ≡ tells_dropped dropped }
{
    Told {
        dropped,
        ..tells(None)
    }
}

// "same state, nothing written"
fn quiet(s: Held, why: Refusal) -> HeldAnswer
    ensures { result ≡ held_quiet s why }
{
    HeldAnswer {
        state: s,
        told: tells(Some(why)),
    }
}

fn dark(s: Held, why: Refusal) -> HeldShown
    ensures { result ≡ held_dark s why }
{
    HeldShown {
        state: s,
        told: tells(Some(why)),
        plan: 0,
        row: NO_ROW,
    }
}
