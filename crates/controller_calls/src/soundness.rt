// 01, "Replies", refusal 7: "state handed in is unsound (own address FFFF, requested plan over 48, position outside the cycle,
// running plan over 48, failing the checks, or numbered 0 and unlike the built-in, impossible decoder place)"; 02, E4 and E6: what can't be remembered,
// T outside 1 to 60 and what can't be out.
ghost use Rattle.std.specs.Prelude.{◌≡◌};
ghost use Rattle.frame.specs.Decoder.{possible_of};
ghost use Rattle.controller.specs.State.{running_sound};
ghost use Rattle.controller_calls.specs.Held.{held_sound};

use crate::{frame_out, memory};
use controller::{ALL, Held, KEPT_LEN, Running};
use frame::decoder::{Head, Place};
use frame_calls::decoder;
use plan_calls::book;
use record::PLANS_MOST;

// So many octets are lent; none of them is read.
#[tactic(auto, unfolding(crate::specs::Held::held_sound))]
pub(crate) fn stands(s: Held, lent: usize) -> bool
    ensures { result ≡ held_sound s lent }
{
    s.own != ALL
        && s.requested <= PLANS_MOST
        && KEPT_LEN <= lent
        && memory::last_stands(s.last)
        && frame_out::wait_stands(s.wait)
        && frame_out::out_stands(s.wait, s.out)
        && decoder_stands(s.receiver.head)
        && running_stands(s.running)
}

// Most octets of a quiet line find the decoder idle, which is always possible: that is told without a call.
#[tactic(auto, unfolding(frame::specs::Decoder::possible_of))]
fn decoder_stands(h: Head) -> bool
    ensures { result ≡ possible_of h }
{
    h.place == Place::Idle || decoder::possible(h)
}

// A built-in record passes the checks, so plan 0 is only compared with the one that is kept.
fn running_stands(u: Running) -> bool
    ensures { result ≡ running_sound u }
{
    if record::cycle(&u.copy) <= u.position {
        return false;
    }
    if PLANS_MOST < u.plan {
        return false;
    }
    if u.plan == 0 {
        let which = u.which;
        return book::is_built_in(&u.copy, which);
    }
    checks::standing(&u.copy) == record::READY
}
