// 02, E6: "source document 004's stop and wait, five tries, for our message frames: one out at a time": what becomes of the frame out. Its INFO stands in
// the octets kept, behind those of the decoder and of the last frame accepted, so that a resend has the octets that it had.
ghost use Rattle.std.specs.Prelude.{◌≡◌, ◌≤◌, true, length};
ghost use Rattle.octets.specs.Put.{Stored};
ghost use Rattle.controller.specs.State.{joined, kept_len, output_len};
ghost use Rattle.controller.specs.Sender.{wait_fits, out_fits, out_seq, stays, again_turn, answers_out, ack_turn, nak_turn, second_turn};
ghost use Rattle.controller.specs.Replies.{sent, resent};
ghost use Rattle.controller_calls.specs.Sender.{Sendable};

use controller::{Held, Link, NONE_OUT, OUT_AT, Out, SENDS_MOST, Turn, WAIT_LEAST, WAIT_MOST};
use frame::INFO_MOST;
use frame_calls::{INFO_LEAST, writer};

// "T seconds (1 to 60".
pub(crate) fn wait_stands(t: u8) -> bool
    ensures { result ≡ wait_fits t }
{
    WAIT_LEAST <= t && t <= WAIT_MOST
}

// Is none out, or one that can be?
#[tactic(auto, unfolding(controller::specs::Sender::out_fits))]
pub(crate) fn out_stands(t: u8, o: Out) -> bool
    ensures { result ≡ out_fits t o }
{
    let n = o.len as usize;
    n == 0
        || (1 <= o.sends
            && o.sends <= SENDS_MOST
            && o.waited < t
            && INFO_LEAST <= n
            && n <= INFO_MOST)
}

// "the same frame goes again; after five sends without an ACK, the link is reported down".
#[tactic(auto, unfolding(controller::specs::Sender::again_turn))]
fn again(o: Out) -> Turn
    ensures { result ≡ again_turn o }
{
    if o.sends < SENDS_MOST {
        return Turn {
            out: Out {
                sends: o.sends + 1,
                waited: 0,
                ..o
            },
            link: Link::Again,
        };
    }
    Turn {
        out: NONE_OUT,
        link: Link::Down,
    }
}

fn stays(out: Out) -> Turn
    ensures { result ≡ stays out }
{
    Turn {
        out,
        link: Link::Still,
    }
}

// Our SEQ less one: that of the frame out.
fn out_seq(ours: u8) -> u8
    ensures { result ≡ out_seq ours }
{
    ours.wrapping_sub(1)
}

// "An ACK or NAK with another SEQ is ignored".
fn answers(ours: u8, o: Out, n: u8) -> bool
    ensures { result ≡ answers_out ours o n }
{
    o.len != 0 && n == out_seq(ours)
}

// An ACK for us with SEQ n.
#[tactic(auto, unfolding(controller::specs::Sender::ack_turn))]
pub(crate) fn acked(ours: u8, o: Out, n: u8) -> Turn
    ensures { result ≡ ack_turn ours o n }
{
    if answers(ours, o, n) {
        return Turn {
            out: NONE_OUT,
            link: Link::Heard,
        };
    }
    stays(o)
}

// A NAK for us with SEQ n, whatever its ERR.
#[tactic(auto, unfolding(controller::specs::Sender::nak_turn))]
pub(crate) fn naked(ours: u8, o: Out, n: u8) -> Turn
    ensures { result ≡ nak_turn ours o n }
{
    if !answers(ours, o, n) {
        return stays(o);
    }
    again(o)
}

// An accepted second.
#[tactic(auto, unfolding(controller::specs::Sender::second_turn))]
pub(crate) fn passed(t: u8, o: Out) -> Turn
    requires { out_fits t o ≡ true }
    ensures { result ≡ second_turn t o }
{
    if o.len == 0 {
        return stays(o);
    }
    if o.waited + 1 < t {
        return stays(Out {
            waited: o.waited + 1,
            ..o
        });
    }
    again(o)
}

// Writes the frame out once more, where the link says so.
pub(crate) fn resend(s: Held, link: Link, kept: &[u8], out: &mut [u8]) -> usize
    requires { Sendable s.out link × (kept_len ≤ length kept.now) × (output_len ≤ length out.old) }
    ensures { Stored (sent (resent (joined s kept.now) link)) 0 out.old result out.new }
{
    match link {
        Link::Again => {
            let end = OUT_AT + s.out.len as usize;
            writer::write_message(out_seq(s.seq), s.own, &kept[OUT_AT..end], out, 0).unwrap()
        }
        _ => 0,
    }
}
