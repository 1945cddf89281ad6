// Frames and messages written aloud: what is to be written, and the octets that were or the refusal.
// A write that fails within a line is let go: the one that ends the line tells.
use crate::say::{Decimal, FrameHead, HexOctets, RefusedCall};
use crate::script;
use frame::Kind;
use frame_calls::writer;
use message::{FIELDS_MOST, Message};
use octets::refusal::Refusal;

const OWN: u16 = 0x0001;

// The octets given are SEQ and, after it, INFO of a message or ERR of a NAK. Gives how many octets were written.
pub(crate) fn write(rt: &impl Print, k: Kind, o: &[u8], out: &mut [u8], at: usize) -> usize {
    let label = match k {
        Kind::Message => ", INFO ",
        Kind::Ack => "",
        Kind::Nak => ", ERR ",
    };
    let head = FrameHead(k, octets::octet_at(o, 0), OWN);
    let _ = print!(rt; "\twrite {head}{label}{}", HexOctets(script::rest(o, 1)));
    let w = written(k, o, &mut *out, at);
    say_written(rt, w, out, at)
}

fn written(k: Kind, o: &[u8], out: &mut [u8], at: usize) -> Result<usize, Refusal> {
    let seq = octets::octet_at(o, 0);
    match k {
        Kind::Message => writer::write_message(seq, OWN, script::rest(o, 1), out, at),
        Kind::Ack => writer::write_ack(seq, OWN, out, at),
        Kind::Nak => writer::write_nak(seq, OWN, octets::octet_at(o, 1), out, at),
    }
}

// The message writer, given a code and its fields' values, two octets each. Gives how many octets were written.
pub(crate) fn compose(rt: &impl Print, o: &[u8], out: &mut [u8], at: usize) -> usize {
    let _ = print!(rt; "\tcompose {}", HexOctets(o));
    let w = message_calls::writer::write(message_in(o), &mut *out, at);
    say_written(rt, w, out, at)
}

fn message_in(o: &[u8]) -> Message {
    let fields = o.get(2..).unwrap_or(&[]);
    let mut values = [0u16; FIELDS_MOST];
    for (value, field) in values.iter_mut().zip(fields.chunks(2)) {
        *value = octets::word_at(field, 0);
    }
    Message {
        code: octets::word_at(o, 0),
        fields: fields.len() / 2,
        values,
    }
}

fn say_written(rt: &impl Print, w: Result<usize, Refusal>, out: &[u8], at: usize) -> usize {
    match w {
        Ok(count) => {
            let o = script::first(script::rest(out, at), count);
            let _ = print!(rt; "\twritten {}: {}", Decimal(count), HexOctets(o));
            count
        }
        Err(r) => {
            let _ = print!(rt; "{}", RefusedCall(Some(r)));
            0
        }
    }
}
