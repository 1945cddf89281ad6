// 01, "Frames": the decoder, and what an octet brings it to. The octets of INFO are lent to it at each call and stand outside it.
use crate::Kind;
use octets::refusal::Refusal;

// What the next octet is to the decoder.
#[derive(Clone, Copy, Debug, PartialEq, Eq)]
pub enum Place {
    Idle,
    LoneAa,
    Seq,
    AddrHigh,
    AddrLow,
    LenHigh,
    LenLow,
    Info,
    InfoAa,
    CloseAa,
    CloseCc,
    Err,
    Cks,
}

// CKS is worked out at the end from what is kept, so that no two fields can disagree.
#[derive(Clone, Copy)]
pub struct Head {
    pub place: Place,
    pub kind: Kind,
    pub seq: u8,
    pub err: u8,
    // While only their high octets are in, ADDR and LEN are those octets.
    pub addr: u16,
    pub len: u16,
    // Octets of INFO that are in.
    pub filled: u16,
}

// What an octet brought.
#[derive(Clone, Copy)]
pub enum Found {
    Nothing,
    // A frame was refused: the refusal, and the frame's kind, SEQ and ADDR.
    Refused(Refusal, Kind, u8, u16),
    // A sound frame ended: its SEQ and ADDR, and how many of the octets kept are its INFO, or its ERR.
    Message(u8, u16, u16),
    Ack(u8, u16),
    Nak(u8, u16, u8),
}

// 02, E5: the decoder's head and, beside it, how many octets have been taken since the last sound frame ended, or since the start, that belong
// to no sound frame. Any such number is sound.
#[derive(Clone, Copy)]
pub struct Receiver {
    pub head: Head,
    pub dropped: u16,
}

// What a call of the decoder answers. The number that it tells is the one that the receiver then has; but with a sound frame's last octet it is the
// number from before that frame, and the receiver then has 0.
#[derive(Clone, Copy)]
pub struct Received {
    pub refusal: Option<Refusal>,
    pub receiver: Receiver,
    pub found: Found,
    pub dropped: u16,
}

// What an octet does: the head that follows, what was found, and whether the octet is kept as one of INFO. The INFO
// octets stand beside it, so that a place that does not touch them does not name them.
#[derive(Clone, Copy)]
pub struct Stepped {
    pub head: Head,
    pub found: Found,
    pub keeps: bool,
}
