// 01, "Frames": the frames that we write, straight into the output from `at` on.
ghost use Rattle.std.specs.Prelude.{◌≡◌, ◌++◌, ◌+◌, ◌≤◌, leb, length};
ghost use Rattle.octets.specs.Choice.{both};
ghost use Rattle.octets.specs.Put.{Stored};
ghost use Rattle.frame.specs.Frame.{message, ack, nak, twice, doubled, info_least, info_most};
ghost use Rattle.octets.specs.Refusals.{told_number};
ghost use Rattle.octets.specs.Writing.{WriterLeaves, written_as, written_of};
ghost use Rattle.frame.specs.Writer.{write_frame, RefusesMessage};

use crate::{AA, ACK_LEN, CC, INFO_LEAST, MESSAGE_LEN, NAK_LEN};
use frame::{INFO_MOST, Kind};
use octets::refusal::Refusal;

// A message frame. INFO that is not 2 to 256 long is refused before the output is looked at.
pub fn write_message(
    seq: u8,
    addr: u16,
    info: &[u8],
    out: &mut [u8],
    at: usize,
) -> Result<usize, Refusal>
    ensures { WriterLeaves (write_frame (message seq addr info.now) at out.old) (written_of result) out.new }
{
    write_message_from(seq, addr, info, &[], out, at)
}

// What `write_message` would refuse, with nothing written: the caller may have something else to look at first.
pub fn refuses_message(info: &[u8], out: &[u8], at: usize) -> Option<Refusal>
    ensures { RefusesMessage info.now at out.now (told_number result) }
{
    if !info_fits(info.len(), 0) {
        return Some(Refusal::InfoWrong);
    }
    let long = usize::from(MESSAGE_LEN) + doubled_len(info);
    if !octets::room(out.len(), at, long) {
        return Some(Refusal::OutputShort);
    }
    None
}

// A message frame whose INFO stands in two places, one run of octets behind the other: it is put together nowhere but in the output.
pub fn write_message_from(
    seq: u8,
    addr: u16,
    head: &[u8],
    rest: &[u8],
    out: &mut [u8],
    at: usize,
) -> Result<usize, Refusal>
    ensures { WriterLeaves (write_frame (message seq addr (head.now ++ rest.now)) at out.old) (written_of result) out.new }
{
    if !info_fits(head.len(), rest.len()) {
        return Err(Refusal::InfoWrong);
    }
    let n = head.len() + rest.len();
    let f = crate::front(Kind::Message, seq, addr, MESSAGE_LEN + n as u16);
    let h = octets::exclusive_or(octets::exclusive_or(0, &f), head);
    let x = octets::exclusive_or(h, rest);
    let e = [AA, CC, octets::exclusive_or(x, &[AA, CC])];
    write_parts(&f, head, rest, &e, out, at)
}

pub fn write_ack(seq: u8, addr: u16, out: &mut [u8], at: usize) -> Result<usize, Refusal>
    ensures { WriterLeaves (write_frame (ack seq addr) at out.old) (written_of result) out.new }
{
    let f = crate::front(Kind::Ack, seq, addr, ACK_LEN);
    let e = [octets::exclusive_or(0, &f)];
    write_plain(&f, &e, out, at)
}

pub fn write_nak(seq: u8, addr: u16, err: u8, out: &mut [u8], at: usize) -> Result<usize, Refusal>
    ensures { WriterLeaves (write_frame (nak seq addr err) at out.old) (written_of result) out.new }
{
    let f = crate::front(Kind::Nak, seq, addr, NAK_LEN);
    let e = [
        err,
        octets::exclusive_or(octets::exclusive_or(0, &f), &[err]),
    ];
    write_plain(&f, &e, out, at)
}

// "n from 2 to 256", of INFO in two runs
fn info_fits(head: usize, rest: usize) -> bool
    ensures { result ≡ both (leb info_least (head + rest)) (leb (head + rest) info_most) }
{
    head <= INFO_MOST && rest <= INFO_MOST - head && INFO_LEAST <= head + rest
}

// The front of a frame, its INFO with each AA twice, and its end, where there is room for all of it.
fn write_parts(
    front: &[u8],
    head: &[u8],
    rest: &[u8],
    end: &[u8],
    out: &mut [u8],
    at: usize,
) -> Result<usize, Refusal>
    requires { (length front.now ≤ info_most) × (length head.now ≤ info_most) × (length rest.now ≤ info_most) × (length end.now ≤ info_most) }
    ensures { WriterLeaves (written_as (front.now ++ (doubled head.now ++ (doubled rest.now ++ end.now))) at out.old) (written_of result) out.new }
{
    let need = front.len() + doubled_len(head) + doubled_len(rest) + end.len();
    if !octets::room(out.len(), at, need) {
        return Err(Refusal::OutputShort);
    }
    let p = octets::put(front, &mut *out, at);
    let h = put_doubled(head, &mut *out, p);
    let q = put_doubled(rest, &mut *out, h);
    octets::put(end, &mut *out, q);
    Ok(need)
}

// A frame without INFO: its front and its end, where there is room for both.
fn write_plain(front: &[u8], end: &[u8], out: &mut [u8], at: usize) -> Result<usize, Refusal>
    requires { (length front.now ≤ info_most) × (length end.now ≤ info_most) }
    ensures { WriterLeaves (written_as (front.now ++ end.now) at out.old) (written_of result) out.new }
{
    let n = front.len() + end.len();
    if !octets::room(out.len(), at, n) {
        return Err(Refusal::OutputShort);
    }
    let p = octets::put(front, &mut *out, at);
    octets::put(end, &mut *out, p);
    Ok(n)
}

// How many octets INFO is as sent.
pub(crate) fn doubled_len(info: &[u8]) -> usize
    requires { length info.now ≤ info_most }
    ensures { (result ≡ length (doubled info.now)) × (result ≤ info_most + info_most) }
{
    info.len() + info.iter().filter(|b| **b == AA).count()
}

// INFO as sent.
fn put_doubled(info: &[u8], out: &mut [u8], at: usize) -> usize
    requires { at + length (doubled info.now) ≤ length out.old }
    ensures { Stored (doubled info.now) at out.old result out.new }
{
    let mut p = at;
    for b in info {
        p = put_twice(*b, &mut *out, p);
    }
    p
}

// "Only an AA within INFO is sent twice"
fn put_twice(b: u8, out: &mut [u8], at: usize) -> usize
    requires { at + length (twice b) ≤ length out.old }
    ensures { Stored (twice b) at out.old result out.new }
{
    out[at] = b;
    if b != AA {
        return at + 1;
    }
    out[at + 1] = AA;
    at + 2
}
