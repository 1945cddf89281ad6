// 01, "Replies" and "Lamps and seconds": the controller's state, and what its calls answer. There is nothing to run: what each
// call makes of state, book and output is defined in specs/, and demands 1 to 3 are proved of it in proofs/. The functions that
// are proved to do so are the crate `controller_calls`.

#![tactic(auto)]

use frame::INFO_MOST;
use frame::decoder::Receiver;
use lamps::Row;
use octets::refusal::Refusal;
use plan::Which;
use record::RECORD_LEN;

// "FFFF is for all".
pub const ALL: u16 = 0xFFFF;

// The output that an octet call and a second are lent, at least.
pub const OUTPUT_LEN: usize = 544;

// The octets that a host lends with the struct, at least: those that the decoder keeps for INFO, behind them those that INFO of the last message
// frame accepted is kept in (02, E4), and behind these, from here on, those of INFO of the frame out (E6).
pub const OUT_AT: usize = 2 * INFO_MOST;

pub const KEPT_LEN: usize = 3 * INFO_MOST;

// 02, E6: "T seconds (1 to 60, given at the start)"; "five tries".
pub const WAIT_LEAST: u8 = 1;

pub const WAIT_MOST: u8 = 60;

pub const SENDS_MOST: u8 = 5;

// What the stepper owns: "The running plan is a copy"; 02, E1: "The state keeps which one, and plan 0 means that one throughout".
#[derive(Clone, Copy)]
pub struct Running {
    pub which: Which,
    pub plan: u8,
    pub position: u16,
    pub copy: [u8; RECORD_LEN],
}

// 02, E4: of the last message frame accepted its SEQ and how long its INFO is, 0 where there is none.
#[derive(Clone, Copy)]
pub struct Last {
    pub seq: u8,
    pub len: u16,
}

// "A fresh start remembers none".
pub const NONE_ACCEPTED: Last = Last { seq: 0, len: 0 };

// 02, E6: of our message frame that is out how often it was sent, the accepted seconds since it was sent last, and how long its INFO is, 0 where none
// is out. Its SEQ is ours less one.
#[derive(Clone, Copy)]
pub struct Out {
    pub sends: u8,
    pub waited: u8,
    pub len: u16,
}

pub const NONE_OUT: Out = Out {
    sends: 0,
    waited: 0,
    len: 0,
};

// How the link stands: nothing new; the frame out is sent again; it is heard, by an ACK; or "the link is reported down".
#[derive(Clone, Copy)]
pub enum Link {
    Still,
    Again,
    Heard,
    Down,
}

// What becomes of the frame out.
#[derive(Clone, Copy)]
pub struct Turn {
    pub out: Out,
    pub link: Link,
}

// The state, but for the octets of INFO, the decoder's, those of the last frame accepted and those of the frame out: these are lent to the calls,
// and all together are the state of 01. `wait` is the T of 02, E6.
#[derive(Clone, Copy)]
pub struct Held {
    pub own: u16,
    pub seq: u8,
    pub requested: u8,
    pub wait: u8,
    pub last: Last,
    pub out: Out,
    pub receiver: Receiver,
    pub running: Running,
}

// "A sound ACK or NAK for us is handed to the host as an event": its SEQ, and a NAK's ERR.
#[derive(Clone, Copy)]
pub enum Event {
    Nothing,
    Ack(u8),
    Nak(u8, u8),
}

// What every call tells. The refusal is that of the call, or of the frame or message that the octet ended; the parameter is the
// field that a refused message's reply names; the count is of octets written. 02, E5: the octets dropped since the last sound frame or the start, as
// the decoder tells them; a start, a second and an offer tell 0. E6: how the link stands.
#[derive(Clone, Copy)]
pub struct Told {
    pub refusal: Option<Refusal>,
    pub parameter: u8,
    pub event: Event,
    pub count: usize,
    pub dropped: u16,
    pub link: Link,
}

// What a fresh start, an octet call, a line-idle call or an offer answers.
#[derive(Clone, Copy)]
pub struct HeldAnswer {
    pub state: Held,
    pub told: Told,
}

// "A second call answers the current plan, step, seconds left in the step (this one counted) and both words".
#[derive(Clone, Copy)]
pub struct HeldShown {
    pub state: Held,
    pub told: Told,
    pub plan: u8,
    pub row: Row,
}

// Which reply a message gets, 01, "Messages". A report is named by its plan alone: its octets are read from the plan's record while they are
// written.
#[derive(Clone, Copy)]
pub enum Reply {
    // 0F 80, of a message with this code
    CarriedOut(u16),
    // 0F 81: the code, the error number and the parameter number
    Refused(u16, Refusal, u8),
    // 5F C4 and 5F C5 of a plan
    Times(u8),
    Plan(u8),
    // 5F C8
    Running,
}

// What a message brought: the refusal and its parameter, the plan then requested, and which reply.
#[derive(Clone, Copy)]
pub struct Handled {
    pub refusal: Option<Refusal>,
    pub parameter: u8,
    pub requested: u8,
    pub reply: Reply,
}
