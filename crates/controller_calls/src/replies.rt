// 01, "Replies": what is done with that which an octet brought, and what is written. "All frames we write carry our own address."
ghost use Rattle.std.specs.Prelude.{◌≡◌, ◌<◌, ◌≤◌, true, length, take, drop, slice_set};
ghost use Rattle.octets.specs.Part.{code_len};
ghost use Rattle.octets.specs.Put.{Stored};
ghost use Rattle.octets.specs.Refusals.{refusal_number};
ghost use Rattle.frame.specs.Frame.{info_least, info_most, message};
ghost use Rattle.frame.specs.Decoder.{joined_decoder};
ghost use Rattle.frame.specs.Dropped.{counted_of};
ghost use Rattle.frame.specs.Run.{sound, found_means};
ghost use Rattle.record.specs.Record.{ready};
ghost use Rattle.checks.specs.Standing.{standing_of};
ghost use Rattle.controller.specs.Memory.{last_fits};
ghost use Rattle.controller.specs.Reply.{handled_as, reply_of};
ghost use Rattle.controller.specs.Sender.{out_start, out_fits};
ghost use Rattle.controller.specs.State.{joined, kept_len, output_len, sound_of};
ghost use Rattle.controller.specs.Replies.{CallLeaves, sent, err_of, naks, acks, for_us, is_answer, replies_of, CanFind, done_of};
ghost use Rattle.controller_calls.specs.Handling.{Reportable};
ghost use Rattle.controller_calls.specs.Held.{one_dropped, one_kept};
ghost use Rattle.controller_calls.specs.Replies.{result_told, brought_as, held_unchanged, held_still, RepliedWith, AcceptedWith, AnsweredWith, SilenceWith, BroughtWith};
ghost use Rattle.controller_calls.specs.Sender.{Sendable};

use crate::incoming::Incoming;
use crate::{frame_out, handling, info, memory};
use controller::{ALL, Event, Handled, Held, HeldAnswer, Last, Link, OUT_AT, Out, Told, Turn};
use frame::Kind;
use frame::decoder::{Found, Head, Receiver};
use frame_calls::{receiver, writer};
use octets::refusal::Refusal;
use record::BOOK_LEN;

// ERR of a NAK for refusal 3; for 1 and 2 it is the refusal itself.
const ERR_LEN: u8 = 4;

// What an octet brought: the refusal that the result names and its parameter, the event, the octets written, the SEQ, the request and the frame out that
// the state then has, and how the link stands.
#[derive(Clone, Copy)]
pub struct ResultCounted {
    pub refusal: Option<Refusal>,
    pub parameter: u8,
    pub event: Event,
    pub count: usize,
    pub seq: u8,
    pub requested: u8,
    pub out: Out,
    pub link: Link,
}

// The same, and what is remembered then.
#[derive(Clone, Copy)]
pub struct Brought {
    pub result: ResultCounted,
    pub last: Last,
}

// "Idle: .. all else is dropped": one octet more.
pub(crate) fn one_dropped(r: Receiver) -> Receiver
    ensures { result ≡ one_dropped r }
{
    let dropped = receiver::stopped(r.dropped as usize + 1);
    Receiver { dropped, ..r }
}

// An octet of INFO behind which others come is stored.
pub(crate) fn info_kept(r: Receiver, kept: &mut [u8], b: u8) -> Receiver
    requires { (r.head.filled < info_most) × (info_most ≤ length kept.old) }
    ensures { (result ≡ one_kept r) × (kept.new ≡ slice_set kept.old r.head.filled b) }
{
    let h = r.head;
    kept[h.filled as usize] = b;
    let head = Head {
        filled: h.filled + 1,
        ..h
    };
    Receiver { head, ..r }
}

// One octet to a sound state, and what it brought.
pub(crate) fn taken(
    s: Held,
    kept: &mut [u8],
    book: &mut [u8; BOOK_LEN],
    out: &mut [u8],
    b: u8,
) -> HeldAnswer
    requires { (sound_of (joined s kept.old) ≡ true) × (output_len ≤ length out.old) }
    ensures { CallLeaves (done_of (joined s kept.old) (counted_of (joined_decoder s.receiver.head kept.old) s.receiver.dropped b) book.old out.old) kept.old result kept.new book.new out.new }
{
    let t = receiver::octet(s.receiver, &mut *kept, b);
    let w = by_found(t.found, s, kept, book, out);
    let r = w.result;
    HeldAnswer {
        state: Held {
            seq: r.seq,
            requested: r.requested,
            receiver: t.receiver,
            last: w.last,
            out: r.out,
            ..s
        },
        told: Told {
            refusal: r.refusal,
            parameter: r.parameter,
            event: r.event,
            count: r.count,
            dropped: t.dropped,
            link: r.link,
        },
    }
}

// What the decoder found, with the octets kept.
fn by_found(
    found: Found,
    s: Held,
    kept: &mut [u8],
    book: &mut [u8; BOOK_LEN],
    out: &mut [u8],
) -> Brought
    requires { (CanFind found) × (last_fits s.last ≡ true) × (out_fits s.wait s.out ≡ true) × (kept_len ≤ length kept.old) × (standing_of s.running.copy ≡ ready) × (output_len ≤ length out.old) }
    ensures { BroughtWith (found_means found (take info_most kept.old)) s kept.old book.old out.old (brought_as result) kept.new book.new out.new }
{
    match found {
        Found::Nothing => still(s, unchanged(s, None, Event::Nothing, 0)),
        Found::Refused(why, kind, seq, addr) => {
            let count = nak(kind, s.own, why, seq, addr, out);
            still(s, unchanged(s, Some(why), Event::Nothing, count))
        }
        Found::Message(seq, addr, len) => {
            message_taken(s, Incoming { seq, addr, len }, kept, book, out)
        }
        Found::Ack(seq, addr) => {
            let t = frame_out::acked(s.seq, s.out, seq);
            still(s, answered(s, addr, Event::Ack(seq), t, kept, out))
        }
        Found::Nak(seq, addr, err) => {
            let t = frame_out::naked(s.seq, s.out, seq);
            still(s, answered(s, addr, Event::Nak(seq, err), t, kept, out))
        }
    }
}

// What is remembered stays.
fn still(s: Held, res: ResultCounted) -> Brought
    ensures { result ≡ held_still s res }
{
    Brought {
        result: res,
        last: s.last,
    }
}

// No message was handled: there is no parameter, and SEQ, request and what is out stay.
fn unchanged(s: Held, refusal: Option<Refusal>, event: Event, count: usize) -> ResultCounted
    ensures { result ≡ held_unchanged s refusal event count }
{
    ResultCounted {
        refusal,
        parameter: 0,
        event,
        count,
        seq: s.seq,
        requested: s.requested,
        out: s.out,
        link: Link::Still,
    }
}

// "A sound ACK or NAK for us is handed to the host as an event"; 02, E6: and to the sender, whose frame out takes the turn t; "one to FFFF is dropped."
fn answered(s: Held, addr: u16, event: Event, t: Turn, kept: &[u8], out: &mut [u8]) -> ResultCounted
    requires { Sendable s.out t.link × (kept_len ≤ length kept.now) × (output_len ≤ length out.old) }
    ensures { AnsweredWith s addr event t kept.now out.old (result_told result) out.new }
{
    if addr != s.own {
        return unchanged(s, None, Event::Nothing, 0);
    }
    let count = frame_out::resend(s, t.link, kept, out);
    ResultCounted {
        out: t.out,
        link: t.link,
        ..unchanged(s, None, event, count)
    }
}

// "Refusals 1 to 3 of a message frame write one NAK with the received SEQ, if the received ADDR is ours".
fn nak(kind: Kind, own: u16, why: Refusal, seq: u8, addr: u16, out: &mut [u8]) -> usize
    requires { output_len ≤ length out.old }
    ensures { Stored (sent (naks kind own (refusal_number why) seq addr)) 0 out.old result out.new }
{
    if addr != own {
        return 0;
    }
    match kind {
        Kind::Message => writer::write_nak(seq, own, err(why), out, 0).unwrap(),
        _ => 0,
    }
}

fn err(why: Refusal) -> u8
    ensures { result ≡ err_of (refusal_number why) }
{
    match why {
        Refusal::LenWrong => ERR_LEN,
        _ => why.number(),
    }
}

// A sound message frame. "A sound frame for another address is dropped silently."; 02, E4: a repeat "gets the ACK (none for
// FFFF) and nothing else"; E6: one that is met with silence gets nothing; any other is accepted, and remembered.
fn message_taken(
    s: Held,
    m: Incoming,
    kept: &mut [u8],
    book: &mut [u8; BOOK_LEN],
    out: &mut [u8],
) -> Brought
    requires { (last_fits s.last ≡ true) × (kept_len ≤ length kept.old) × (standing_of s.running.copy ≡ ready) × (output_len ≤ length out.old) }
    ensures { BroughtWith (sound (message m.seq m.addr (take m.len kept.old))) s kept.old book.old out.old (brought_as result) kept.new book.new out.new }
{
    if !for_us(s.own, m.addr) {
        return still(s, unchanged(s, None, Event::Nothing, 0));
    }
    if memory::is_repeat(s.last, m, kept) {
        let count = ack(s.own, m.seq, m.addr, out);
        return still(s, unchanged(s, None, Event::Nothing, count));
    }
    if met_with_silence(s, m.addr, &kept[..m.len as usize]) {
        return still(s, unchanged(s, None, Event::Nothing, 0));
    }
    let last = memory::remember(m, &mut *kept);
    let result = accepted(s, m, kept, book, out);
    Brought { result, last }
}

// 02, E6: "while one is out, a new message that calls for a reply is met with silence".
#[tactic(auto, unfolding(controller::specs::Replies::met_with_silence))]
fn met_with_silence(s: Held, addr: u16, info: &[u8]) -> bool
    requires { code_len ≤ length info.now }
    ensures { SilenceWith s addr info.now result }
{
    s.out.len != 0 && addr == s.own && !is_answer(octets::word(info[0], info[1]))
}

// A message frame that is no repeat and not met with silence.
fn accepted(
    s: Held,
    m: Incoming,
    kept: &mut [u8],
    book: &mut [u8; BOOK_LEN],
    out: &mut [u8],
) -> ResultCounted
    requires { (kept_len ≤ length kept.old) × (standing_of s.running.copy ≡ ready) × (output_len ≤ length out.old) }
    ensures { AcceptedWith s m.seq m.addr (take m.len kept.old) kept.old book.old out.old (result_told result) kept.new book.new out.new }
{
    if is_answer(octets::word(kept[0], kept[1])) {
        let count = ack(s.own, m.seq, m.addr, out);
        return unchanged(s, None, Event::Nothing, count);
    }
    let h = handling::carry_out(s, &mut *book, &kept[..m.len as usize]);
    replied(s, m, h, kept, book, out)
}

fn for_us(own: u16, addr: u16) -> bool
    ensures { result ≡ for_us own addr }
{
    addr == own || addr == ALL
}

fn is_answer(code: u16) -> bool
    ensures { result ≡ is_answer code }
{
    matches!(code, message::CARRIED_OUT | message::REFUSED)
}

// "A received 0F 80 or 0F 81 of any length gets the ACK only (nothing for FFFF) and is no refusal."; 02, E4: and so does a repeat.
fn ack(own: u16, seq: u8, addr: u16, out: &mut [u8]) -> usize
    requires { output_len ≤ length out.old }
    ensures { Stored (sent (acks own seq addr)) 0 out.old result out.new }
{
    if addr != own {
        return 0;
    }
    writer::write_ack(seq, own, out, 0).unwrap()
}

// "A sound message frame for us writes an ACK with the received SEQ, then one message frame with our next SEQ."; 02, E6: "The octet call hands its reply
// to this sender, which writes it in that call".
fn replied(
    s: Held,
    m: Incoming,
    h: Handled,
    kept: &mut [u8],
    book: &[u8; BOOK_LEN],
    out: &mut [u8],
) -> ResultCounted
    requires { (kept_len ≤ length kept.old) × (Reportable s book.now (reply_of h.reply)) × (output_len ≤ length out.old) }
    ensures { RepliedWith s book.now m.seq m.addr (handled_as h) kept.old out.old (result_told result) kept.new out.new }
{
    let told = ResultCounted {
        parameter: h.parameter,
        requested: h.requested,
        ..unchanged(s, h.refusal, Event::Nothing, 0)
    };
    // "FFFF is for all: carried out, never replied to."
    if m.addr != s.own {
        return told;
    }
    let len = info::put(s, h.reply, book, &mut *kept);
    ResultCounted {
        count: write_reply(s, m.seq, len, kept, out),
        seq: s.seq.wrapping_add(1),
        out: Out {
            sends: 1,
            waited: 0,
            len,
        },
        ..told
    }
}

// The ACK, and the message frame whose INFO of this length is kept.
fn write_reply(s: Held, seq: u8, len: u16, kept: &[u8], out: &mut [u8]) -> usize
    requires { (info_least ≤ len) × (len ≤ info_most) × (kept_len ≤ length kept.now) × (output_len ≤ length out.old) }
    ensures { Stored (sent (replies_of seq s.seq s.own (take len (drop out_start kept.now)))) 0 out.old result out.new }
{
    let a = writer::write_ack(seq, s.own, &mut *out, 0).unwrap();
    let end = OUT_AT + len as usize;
    let w = writer::write_message(s.seq, s.own, &kept[OUT_AT..end], &mut *out, a).unwrap();
    a + w
}
