// 01, "Frames": the decoder takes a frame octet by octet, and the writers write one whole.

#![tactic(auto)]

pub mod decoder;
pub mod receiver;
pub mod writer;

ghost use Rattle.std.specs.Prelude.{◌≡◌};
ghost use Rattle.frame.specs.Frame.{opener, front};

use frame::Kind;

// The octets that 01 names by their value: AA marks, and the one after it says what it marks.
pub const AA: u8 = 0xaa;

pub const BB: u8 = 0xbb;

pub const CC: u8 = 0xcc;

pub const DD: u8 = 0xdd;

pub const EE: u8 = 0xee;

// INFO of a message frame, at least.
pub const INFO_LEAST: usize = 2;

// LEN: of a message frame without its INFO, of an ACK and of a NAK.
pub const MESSAGE_LEN: u16 = 10;

pub const ACK_LEN: u16 = 8;

pub const NAK_LEN: u16 = 9;

// The octets from the first AA to LEN.
pub const FRONT_LEN: usize = 7;

// The octet after the first AA.
pub(crate) fn opener(k: Kind) -> u8
    ensures { result ≡ opener k }
{
    match k {
        Kind::Message => BB,
        Kind::Ack => DD,
        Kind::Nak => EE,
    }
}

// The octets from the first AA to LEN, which no kind doubles.
pub(crate) fn front(k: Kind, seq: u8, addr: u16, len: u16) -> [u8; FRONT_LEN]
    ensures { result ≡ front k seq addr len }
{
    [
        AA,
        opener(k),
        seq,
        octets::high(addr),
        octets::low(addr),
        octets::high(len),
        octets::low(len),
    ]
}
