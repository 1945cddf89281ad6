// The decoder and the writers put to work aloud. A write that fails within a line is let go: the one that ends the line tells.
use crate::reading::LentDecoder;
use crate::say::{Decimal, HexOctets};
use crate::words::FrameWord;
use crate::{script, writing};
use frame::Kind;

// The decoder, where the next frame is written, and how long the last one was.
#[derive(Clone, Copy)]
pub(crate) struct Bench {
    decoder: LentDecoder,
    at: usize,
    written: usize,
}

impl Bench {
    pub(crate) fn fresh() -> Bench {
        Bench {
            decoder: LentDecoder::fresh(),
            at: 0,
            written: 0,
        }
    }

    pub(crate) fn done(&mut self, rt: &impl Print, w: FrameWord, o: &[u8], out: &mut [u8]) {
        match w {
            FrameWord::Read => self.read(rt, o, out),
            FrameWord::Idle => self.decoder.idle(rt),
            FrameWord::Unsound => self.decoder.unsound(rt),
            FrameWord::Dropped => self.decoder.count(rt, octets::word_at(o, 0)),
            FrameWord::Place => self.place(rt, octets::word_at(o, 0)),
            FrameWord::Message => self.write(rt, Kind::Message, o, out),
            FrameWord::Ack => self.write(rt, Kind::Ack, o, out),
            FrameWord::Nak => self.write(rt, Kind::Nak, o, out),
            FrameWord::Compose => self.compose(rt, o, out),
            FrameWord::Output => {
                let _ = print!(rt; "\toutput {}", HexOctets(out));
            }
        }
    }

    // The octets given or, where there are none, those that were written last.
    fn read(&mut self, rt: &impl Print, o: &[u8], out: &[u8]) {
        if o.is_empty() {
            let last = script::first(script::rest(out, self.at), self.written);
            let _ = print!(rt; "\tread back");
            return self.decoder.read(rt, last);
        }
        let _ = print!(rt; "\tread {}", HexOctets(o));
        self.decoder.read(rt, o);
    }

    fn place(&mut self, rt: &impl Print, at: u16) {
        self.at = usize::from(at);
        let _ = print!(rt; "\tplace {}", Decimal(self.at));
    }

    fn write(&mut self, rt: &impl Print, k: Kind, o: &[u8], out: &mut [u8]) {
        self.written = writing::write(rt, k, o, out, self.at);
    }

    fn compose(&mut self, rt: &impl Print, o: &[u8], out: &mut [u8]) {
        self.written = writing::compose(rt, o, out, self.at);
    }
}
