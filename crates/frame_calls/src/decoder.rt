// 01, "Frames": "The decoder takes one octet a call."
ghost use Rattle.std.specs.Prelude.{◌≡◌, true, ◌+◌, ◌≤◌, ◌<◌, ltb, take};
ghost use Rattle.frame.specs.Frame.{len_fits, info_most, message_len};
ghost use Rattle.frame.specs.Decoder.{has_info, info_due, info_whole, err_due, cks_due, idle_drops, info_goes_on, possible_of, head_at, found_at, moved, ended, opened, refused_by, idle_octet, after_aa, after_len, len_judged, after_info, kept, info_octet, info_aa_octet, close_aa_octet, close_cc_octet, cks_in, sound_by, cks_octet, step_at};

use crate::{AA, ACK_LEN, BB, CC, DD, EE, INFO_LEAST, MESSAGE_LEN, NAK_LEN};
use frame::decoder::{Found, Head, Place, Stepped};
use frame::{INFO_MOST, Kind};
use octets::refusal::Refusal;

// "Idle: AA is remembered, all else is dropped." What is dropped leaves the decoder as it is.
pub fn idle_drops(h: Head, b: u8) -> bool
    ensures { result ≡ idle_drops h.place b }
{
    h.place == Place::Idle && b != AA
}

// An octet of INFO, no AA, behind which others are still to come: it is kept, and the decoder stays where it is.
pub fn info_goes_on(h: Head, b: u8) -> bool
    ensures { result ≡ info_goes_on h.place h.len h.filled b }
{
    h.place == Place::Info && b != AA && more_follow(h.len, h.filled)
}

// Does one more octet of INFO leave others to come?
fn more_follow(len: u16, filled: u16) -> bool
    ensures { result ≡ ltb (message_len + (filled + 1)) len }
{
    u32::from(MESSAGE_LEN) + (u32::from(filled) + 1) < u32::from(len)
}

// Can a decoder stand so? Kind, LEN and the count of INFO must fit the place.
#[tactic(auto, unfolding(frame::specs::Decoder::possible_of))]
pub fn possible(h: Head) -> bool
    ensures { result ≡ possible_of h }
{
    match h.place {
        Place::Idle | Place::LoneAa | Place::Seq | Place::AddrHigh | Place::LenHigh => true,
        Place::AddrLow => h.addr < 256,
        Place::LenLow => h.len < 256,
        Place::Info | Place::InfoAa => info_due(h.kind, h.len, h.filled),
        Place::CloseAa | Place::CloseCc => info_whole(h.kind, h.len, h.filled),
        Place::Err => err_due(h.kind, h.len),
        Place::Cks => cks_due(h.kind, h.len, h.filled),
    }
}

// A message whose LEN is right. No other frame has INFO.
fn has_info(k: Kind, len: u16) -> bool
    ensures { result ≡ has_info k len }
{
    k == Kind::Message && len_fits(k, len)
}

// A message some of whose INFO is still to come.
fn info_due(k: Kind, len: u16, filled: u16) -> bool
    ensures { result ≡ info_due k len filled }
{
    has_info(k, len) && filled < len - MESSAGE_LEN
}

// A message all of whose INFO is in.
fn info_whole(k: Kind, len: u16, filled: u16) -> bool
    ensures { result ≡ info_whole k len filled }
{
    has_info(k, len) && filled == len - MESSAGE_LEN
}

// A NAK, whose ERR is still to come.
fn err_due(k: Kind, len: u16) -> bool
    ensures { result ≡ err_due k len }
{
    k == Kind::Nak && len_fits(k, len)
}

// A frame all of which but CKS is in.
fn cks_due(k: Kind, len: u16, filled: u16) -> bool
    ensures { result ≡ cks_due k len filled }
{
    match k {
        Kind::Message => info_whole(k, len, filled),
        Kind::Ack | Kind::Nak => len_fits(k, len),
    }
}

// Is this LEN as in its kind's row?
fn len_fits(k: Kind, len: u16) -> bool
    ensures { result ≡ len_fits k len }
{
    match k {
        Kind::Message => {
            MESSAGE_LEN + INFO_LEAST as u16 <= len && len <= MESSAGE_LEN + INFO_MOST as u16
        }
        Kind::Ack => len == ACK_LEN,
        Kind::Nak => len == NAK_LEN,
    }
}

// The head at another place, of a frame of this kind.
pub(crate) fn placed(h: Head, p: Place, k: Kind) -> Head
    ensures { result ≡ head_at h p k }
{
    Head {
        place: p,
        kind: k,
        ..h
    }
}

// The same, and what was found.
fn found_at(h: Head, p: Place, k: Kind, f: Found) -> Stepped
    ensures { result ≡ found_at h p k f }
{
    Stepped {
        head: placed(h, p, k),
        found: f,
        keeps: false,
    }
}

// Another place, and nothing found.
fn moved(h: Head, p: Place) -> Stepped
    ensures { result ≡ moved h p }
{
    found_at(h, p, h.kind, Found::Nothing)
}

// Idle again, after what was found.
fn ended(h: Head, f: Found) -> Stepped
    ensures { result ≡ ended h f }
{
    found_at(h, Place::Idle, h.kind, f)
}

// A frame of this kind is opened, after what was found.
fn opened(h: Head, k: Kind, f: Found) -> Stepped
    ensures { result ≡ opened h k f }
{
    found_at(h, Place::Seq, k, f)
}

// The refusal of the frame that is open.
fn refused_by(h: Head, r: Refusal) -> Found
    ensures { result ≡ refused_by h r }
{
    Found::Refused(r, h.kind, h.seq, h.addr)
}

// "Idle: AA is remembered, all else is dropped."
fn idle_octet(h: Head, b: u8) -> Stepped
    ensures { result ≡ idle_octet h b }
{
    match b {
        AA => moved(h, Place::LoneAa),
        _ => moved(h, Place::Idle),
    }
}

// "After a lone AA: BB, DD or EE opens a frame, AA stays remembered, all else returns to idle."
fn after_aa(h: Head, b: u8, f: Found) -> Stepped
    ensures { result ≡ after_aa h b f }
{
    match b {
        AA => found_at(h, Place::LoneAa, h.kind, f),
        BB => opened(h, Kind::Message, f),
        DD => opened(h, Kind::Ack, f),
        EE => opened(h, Kind::Nak, f),
        _ => ended(h, f),
    }
}

// What follows LEN in a frame of this kind.
fn after_len(k: Kind) -> Place
    ensures { result ≡ after_len k }
{
    match k {
        Kind::Message => Place::Info,
        Kind::Ack => Place::Cks,
        Kind::Nak => Place::Err,
    }
}

// "LEN is judged at its second octet."
fn len_judged(mut h: Head, n: u16) -> Stepped
    ensures { result ≡ len_judged h n }
{
    if len_fits(h.kind, n) {
        h.len = n;
        h.filled = 0;
        moved(h, after_len(h.kind))
    } else {
        ended(h, refused_by(h, Refusal::LenWrong))
    }
}

// "After n octets of INFO come AA and CC": the place where some of them are in.
fn after_info(len: u16, filled: u16) -> Place
    requires { filled ≤ info_most }
    ensures { result ≡ after_info len filled }
{
    if MESSAGE_LEN + filled < len {
        Place::Info
    } else {
        Place::CloseAa
    }
}

// An octet of INFO is kept.
fn kept(mut h: Head) -> Stepped
    requires { h.filled < info_most }
    ensures { result ≡ kept h }
{
    h.filled += 1;
    Stepped {
        keeps: true,
        ..moved(h, after_info(h.len, h.filled))
    }
}

// An AA of INFO comes twice: the first is not kept.
fn info_octet(h: Head, b: u8) -> Stepped
    requires { h.filled < info_most }
    ensures { result ≡ info_octet h b }
{
    match b {
        AA => moved(h, Place::InfoAa),
        _ => kept(h),
    }
}

// "In INFO an AA followed by something else .. is refusal 2. The wrong octet after an AA is then judged as if it had
// followed a lone AA"
fn info_aa_octet(h: Head, b: u8) -> Stepped
    requires { h.filled < info_most }
    ensures { result ≡ info_aa_octet h b }
{
    match b {
        AA => kept(h),
        _ => after_aa(h, b, refused_by(h, Refusal::ClosingWrong)),
    }
}

// "or a wrong octet at the AA or CC of the end, is refusal 2"; "a wrong octet where the closing AA was due returns to
// idle"
fn close_aa_octet(h: Head, b: u8) -> Stepped
    ensures { result ≡ close_aa_octet h b }
{
    match b {
        AA => moved(h, Place::CloseCc),
        _ => ended(h, refused_by(h, Refusal::ClosingWrong)),
    }
}

// "The wrong octet after an AA is then judged as if it had followed a lone AA": here too.
fn close_cc_octet(h: Head, b: u8) -> Stepped
    ensures { result ≡ close_cc_octet h b }
{
    match b {
        CC => moved(h, Place::Cks),
        _ => after_aa(h, b, refused_by(h, Refusal::ClosingWrong)),
    }
}

// The first n octets of INFO, or all where there are fewer.
pub(crate) fn first(info: &[u8], n: u16) -> &[u8]
    ensures { result.now ≡ take n info.now }
{
    &info[..usize::from(n).min(info.len())]
}

// CKS as it should come: over what is kept, so before doubling.
fn cks(h: Head, info: &[u8]) -> u8
    ensures { result ≡ cks_in h info.now }
{
    let f = crate::front(h.kind, h.seq, h.addr, h.len);
    let x = octets::exclusive_or(0, &f);
    match h.kind {
        Kind::Message => {
            let y = octets::exclusive_or(x, first(info, h.filled));
            octets::exclusive_or(y, &[AA, CC])
        }
        Kind::Ack => x,
        Kind::Nak => octets::exclusive_or(x, &[h.err]),
    }
}

// The sound frame that has ended.
fn sound_by(h: Head) -> Found
    ensures { result ≡ sound_by h }
{
    match h.kind {
        Kind::Message => Found::Message(h.seq, h.addr, h.filled),
        Kind::Ack => Found::Ack(h.seq, h.addr),
        Kind::Nak => Found::Nak(h.seq, h.addr, h.err),
    }
}

// "Refusals 1 and 3 and the end of a sound frame also leave it idle, with no AA remembered."
fn cks_octet(h: Head, info: &[u8], b: u8) -> Stepped
    ensures { result ≡ cks_octet h info.now b }
{
    if cks(h, info) == b {
        ended(h, sound_by(h))
    } else {
        ended(h, refused_by(h, Refusal::CksWrong))
    }
}

// One octet to a possible decoder. SEQ, ADDR and LEN come in octet by octet, high octet first; ERR is one.
pub(crate) fn step(mut h: Head, info: &[u8], b: u8) -> Stepped
    requires { possible_of h ≡ true }
    ensures { result ≡ step_at h.place h info.now b }
{
    match h.place {
        Place::Idle => idle_octet(h, b),
        Place::LoneAa => after_aa(h, b, Found::Nothing),
        Place::Seq => {
            h.seq = b;
            moved(h, Place::AddrHigh)
        }
        Place::AddrHigh => {
            h.addr = u16::from(b);
            moved(h, Place::AddrLow)
        }
        Place::AddrLow => {
            h.addr = octets::word(octets::low(h.addr), b);
            moved(h, Place::LenHigh)
        }
        Place::LenHigh => {
            h.len = u16::from(b);
            moved(h, Place::LenLow)
        }
        Place::LenLow => len_judged(h, octets::word(octets::low(h.len), b)),
        Place::Info => info_octet(h, b),
        Place::InfoAa => info_aa_octet(h, b),
        Place::CloseAa => close_aa_octet(h, b),
        Place::CloseCc => close_cc_octet(h, b),
        Place::Err => {
            h.err = b;
            moved(h, Place::Cks)
        }
        Place::Cks => cks_octet(h, info, b),
    }
}
