// A host for measuring: it makes the calls that its input names, and nothing else. An event is two octets: 00 and an octet from
// the line, 01 and any for a second, 02 and any for a line-idle call, 03 or 04 and an octet for a fresh start with it as address and as
// T, with the new plan 0 or the old, 05 and an octet for an offer of 0F and that octet. Other numbers make the same calls from a second
// place, so that in the compiled program they are functions of their own, and can be counted.

#![tactic(auto)]

ghost use Rattle.std.specs.Prelude.{◌≤◌, length};

use controller::{Held, KEPT_LEN, OUTPUT_LEN};
use record::BOOK_LEN;
use std::io::Read;

const OWN: u16 = 0x0001;

const WAIT: u8 = 10;

// The octets of all events at most.
const EVENTS_MOST: usize = 65536;

fn main(rt: HostRuntime) {
    let mut events = [0u8; EVENTS_MOST];
    let n = read_full(&mut rt.stdin(), &mut events);
    let mut kept = [0u8; KEPT_LEN];
    let mut book = [0u8; BOOK_LEN];
    let mut out = [0u8; OUTPUT_LEN];
    let f = controller_calls::fresh(OWN, WAIT);
    let state = made(f.state, &events[..n], &mut kept, &mut book, &mut out);
    // so that no call is left out as one whose result nobody sees
    let _ = rt.write_all(&[state.seq, state.requested, out[0]]);
}

// Puts into s what it holds of the input, and gives how many octets that is; a read that fails ends the input.
fn read_full(input: &mut impl Read, s: &mut [u8]) -> usize
    ensures { result ≤ length s.new }
{
    let mut at = 0;
    while at < s.len() {
        let n = input.read(&mut s[at..]).unwrap_or(0);
        if n == 0 {
            return at;
        }
        at += n;
    }
    at
}

fn made(start: Held, events: &[u8], kept: &mut [u8], book: &mut [u8], out: &mut [u8]) -> Held {
    let mut s = start;
    let (pairs, _) = events.as_chunks::<2>();
    for [kind, b] in pairs {
        s = event(s, *kind, *b, &mut *kept, &mut *book, &mut *out);
    }
    s
}

fn event(s: Held, kind: u8, b: u8, kept: &mut [u8], book: &mut [u8], out: &mut [u8]) -> Held {
    // Asked first: as an arm of the match an octet takes 14 instructions more.
    if kind == 0 {
        return controller_calls::octet(s, kept, book, out, b).state;
    }
    match kind {
        1 => controller_calls::second(s, kept, book, out).state,
        2..=4 => small(s, kind, kept, b),
        5 => controller_calls::offer(s, kept, &[0x0F, b], out).state,
        6 => controller_calls::octet(s, kept, book, out, b / 2).state,
        7 => controller_calls::offer(s, kept, &[b, b], out).state,
        _ => controller_calls::second(small(s, b, &*kept, b), kept, book, out).state,
    }
}

// The calls that the compiler puts into whoever makes them: what they cost in stack is this function's.
fn small(s: Held, kind: u8, kept: &[u8], b: u8) -> Held {
    match kind {
        2 => controller_calls::line_idle(s, kept).state,
        3 => controller_calls::fresh(u16::from(b), b).state,
        _ => controller_calls::fresh_old(u16::from(b), b).state,
    }
}
