// Octets read aloud: what each brings, where it brings something, and where the decoder then is.
// A write that fails within a line is let go: the one that ends the line tells.
use crate::say::{Brought, DecoderPlace, Dropped, HexOctets, RefusedCall};
use frame::decoder::{Found, Head, Place, Receiver};
use frame::{INFO_MOST, Kind};
use frame_calls::receiver;

// The decoder, and the octets of INFO that are lent to it.
#[derive(Clone, Copy)]
pub(crate) struct LentDecoder {
    receiver: Receiver,
    kept: [u8; INFO_MOST],
}

impl LentDecoder {
    pub(crate) fn fresh() -> LentDecoder {
        LentDecoder {
            receiver: receiver::fresh(),
            kept: [0; INFO_MOST],
        }
    }

    // Takes the octets; what the last of them tells of octets dropped is said.
    pub(crate) fn read(&mut self, rt: &impl Print, s: &[u8]) {
        let mut dropped = 0;
        for (number, b) in (1..=s.len()).zip(s) {
            dropped = self.take(rt, number, *b);
        }
        let _ = print!(rt;
            "{}\t{}",
            Dropped(dropped),
            DecoderPlace(self.receiver.head.place)
        );
    }

    // Takes octet b, which is number `number` of those given, and gives how many octets were dropped.
    fn take(&mut self, rt: &impl Print, number: usize, b: u8) -> u16 {
        let t = receiver::octet(self.receiver, &mut self.kept, b);
        self.receiver = t.receiver;
        // Most octets have nothing to say, and a `print!` of nothing still costs its buffer.
        if t.refusal.is_some() {
            let _ = print!(rt; "{}", RefusedCall(t.refusal));
        }
        if !matches!(t.found, Found::Nothing) {
            let brought = Brought {
                found: t.found,
                number,
                kept: &self.kept,
            };
            let _ = print!(rt; "{brought}");
        }
        t.dropped
    }

    pub(crate) fn idle(&mut self, rt: &impl Print) {
        let t = receiver::line_idle(self.receiver, &self.kept);
        self.receiver = t.receiver;
        let place = DecoderPlace(t.receiver.head.place);
        let _ = print!(rt;
            "\tline idle{}{}\t{place}",
            RefusedCall(t.refusal),
            Dropped(t.dropped)
        );
    }

    // An impossible decoder: an ACK has no INFO.
    pub(crate) fn unsound(&mut self, rt: &impl Print) {
        let r = receiver::fresh();
        let head = Head {
            place: Place::Info,
            kind: Kind::Ack,
            ..r.head
        };
        self.receiver = Receiver { head, ..r };
        let _ = print!(rt; "\tdecoder at INFO of an ACK");
    }

    // So many octets dropped so far.
    pub(crate) fn count(&mut self, rt: &impl Print, dropped: u16) {
        self.receiver.dropped = dropped;
        let _ = print!(rt; "\tso far{}", Dropped(dropped));
    }
}
