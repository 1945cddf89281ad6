// 02, E5: "The decoder's result for every octet also gives how many octets have been taken since the last sound frame ended, or since the start,
// that belong to no sound frame.": the decoder's calls, with that number beside its head.
ghost use Rattle.std.specs.Prelude.{◌≡◌, ◌+◌, ◌-◌, ◌≤◌, length, take};
ghost use Rattle.frame.specs.declared.decoder.Place.TheVariants.{Cks};
ghost use Rattle.frame.specs.Frame.{info_most, doubled};
ghost use Rattle.frame.specs.Decoder.{joined_decoder};
ghost use Rattle.frame.specs.Dropped.{open_at, open_in, open_most, stopped, waits, OpenThen, octet_lent, idle_lent, fresh_receiver, received_none, received_as, received_by, received_with, ReceivedLeaves};

use crate::{FRONT_LEN, decoder, writer};
use frame::decoder::{Found, Head, Place, Received, Receiver, Stepped};
use frame::{INFO_MOST, Kind};
use octets::refusal::Refusal;

// "The number stops at 65,535".
const DROPPED_MOST: u16 = 65535;

// A decoder at rest, and no octet dropped. What the octets then hold that are lent for INFO does not matter.
#[tactic(auto, unfolding(frame::specs::Decoder::fresh_head, frame::specs::Dropped::fresh_receiver))]
pub fn fresh() -> Receiver
    ensures { result ≡ fresh_receiver }
{
    Receiver {
        head: Head {
            place: Place::Idle,
            kind: Kind::Message,
            seq: 0,
            err: 0,
            addr: 0,
            len: 0,
            filled: 0,
        },
        dropped: 0,
    }
}

// Takes one octet; the first 256 of `kept` are the decoder's octets of INFO. An impossible decoder, or one that is lent fewer, is
// refused and comes back as it was.
pub fn octet(r: Receiver, kept: &mut [u8], b: u8) -> Received
    ensures { ReceivedLeaves (octet_lent (joined_decoder r.head kept.old) r.dropped b) kept.old result kept.new }
{
    let Some(info) = kept.first_chunk::<INFO_MOST>() else {
        return unsound(r);
    };
    let h = r.head;
    if !decoder::possible(h) {
        return unsound(r);
    }
    let t = decoder::step(h, info, b);
    if t.keeps {
        let at = usize::from(h.filled);
        kept[at] = b;
        return received(t.head, r.dropped, t.found, r.dropped);
    }
    counted(r, info, t)
}

// "A line-idle call, made by the host, returns the decoder to idle and changes nothing else."; 02, E5: "Line-idle counts the frame or AA it
// abandons."
pub fn line_idle(r: Receiver, kept: &[u8]) -> Received
    ensures { received_with result kept.now ≡ idle_lent (joined_decoder r.head kept.now) r.dropped }
{
    let Some(info) = kept.first_chunk::<INFO_MOST>() else {
        return unsound(r);
    };
    let h = r.head;
    if !decoder::possible(h) {
        return unsound(r);
    }
    let n = stopped(usize::from(r.dropped) + still_open(h, info));
    let idle = decoder::placed(h, Place::Idle, h.kind);
    received(idle, n, Found::Nothing, n)
}

// "state handed in is unsound": "same state"; no number is told.
fn unsound(r: Receiver) -> Received
    ensures { result ≡ received_none r }
{
    Received {
        refusal: Some(Refusal::StateUnsound),
        receiver: r,
        found: Found::Nothing,
        dropped: 0,
    }
}

// The number that is then kept, and the one that is told.
fn received(head: Head, kept: u16, found: Found, told: u16) -> Received
    ensures { result ≡ received_as head kept found told }
{
    Received {
        refusal: None,
        receiver: Receiver {
            head,
            dropped: kept,
        },
        found,
        dropped: told,
    }
}

// The number after an octet that is not kept. An octet that goes on with its frame leaves the number, so what is open is not worked out.
fn counted(r: Receiver, info: &[u8; INFO_MOST], t: Stepped) -> Received
    requires { OpenThen r.head info.now t }
    ensures { result ≡ received_by t.found t.head r.dropped (stopped ((r.dropped + open_in r.head info.now + 1) - open_in t.head info.now)) }
{
    match t.found {
        Found::Nothing if !waits(t.head) => received(t.head, r.dropped, t.found, r.dropped),
        Found::Nothing | Found::Refused(..) => {
            let n = number_then(r, info, t.head);
            received(t.head, n, t.found, n)
        }
        // "the next sound frame carries it out and clears it"
        _ => received(t.head, 0, t.found, r.dropped),
    }
}

// Is the decoder idle, or after a lone AA?
fn waits(h: Head) -> bool
    ensures { result ≡ waits h.place }
{
    matches!(h.place, Place::Idle | Place::LoneAa)
}

// The octets that were open, and the one that was taken, are dropped but for those that are open then.
fn number_then(r: Receiver, info: &[u8; INFO_MOST], then: Head) -> u16
    requires { open_in then info.now ≤ open_in r.head info.now + 1 }
    ensures { result ≡ stopped ((r.dropped + open_in r.head info.now + 1) - open_in then info.now) }
{
    let before = usize::from(r.dropped) + still_open(r.head, info);
    stopped(before + 1 - still_open(then, info))
}

// "The number stops at 65,535".
#[tactic(auto, unfolding(frame::specs::Dropped::stopped))]
pub fn stopped(n: usize) -> u16
    ensures { result ≡ stopped n }
{
    n.min(usize::from(DROPPED_MOST)) as u16
}

// "Octets of a frame still open, or a remembered AA": how many of them have been taken.
fn still_open(h: Head, info: &[u8; INFO_MOST]) -> usize
    ensures { (result ≡ open_in h info.now) × (result ≤ open_most) }
{
    match h.place {
        Place::Idle => 0,
        Place::LoneAa => 1,
        Place::Seq => 2,
        Place::AddrHigh => 3,
        Place::AddrLow => 4,
        Place::LenHigh => 5,
        Place::LenLow => 6,
        Place::Info | Place::CloseAa => FRONT_LEN + came(h.filled, info),
        Place::InfoAa | Place::CloseCc => FRONT_LEN + came(h.filled, info) + 1,
        Place::Err => FRONT_LEN,
        Place::Cks => FRONT_LEN + behind_len(h.kind, h.filled, info),
    }
}

// What came between LEN and CKS.
fn behind_len(k: Kind, filled: u16, info: &[u8; INFO_MOST]) -> usize
    ensures { (7 + result ≡ open_at Cks k (take filled info.now)) × (7 + result ≤ open_most) }
{
    match k {
        Kind::Message => came(filled, info) + 2,
        Kind::Ack => 0,
        Kind::Nak => 1,
    }
}

// The first n octets of INFO as they came: of a doubled AA both.
fn came(n: u16, info: &[u8; INFO_MOST]) -> usize
    ensures { (result ≡ length (doubled (take n info.now))) × (result ≤ info_most + info_most) }
{
    writer::doubled_len(decoder::first(info, n))
}
