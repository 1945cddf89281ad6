// 01, "Frames": the three kinds of frame, and the decoder. There is nothing to run: what an octet does to the decoder and what a
// writer stores is defined in specs/, and what 01 asks of them is proved in proofs/. The functions that are proved to do so
// are the crate `frame_calls`.

#![tactic(auto)]

pub mod decoder;

// INFO of a message frame, at most.
pub const INFO_MOST: usize = 256;

#[derive(Clone, Copy, Debug, PartialEq, Eq)]
pub enum Kind {
    Message,
    Ack,
    Nak,
}
