// What is printed, thing by thing. A thing that says nothing where there is nothing to say brings its own tab. The digits are those of `text`.
use crate::script;
use controller::{Event, HeldShown, Link};
use frame::Kind;
use frame::decoder::{Found, Place};
use octets::refusal::Refusal;
use std::fmt;

// So many of one octet in a row are counted.
const COUNTED: usize = 4;

// An octet in two hexadecimal digits.
#[derive(Clone, Copy)]
pub(crate) struct Hex2(pub(crate) u8);

impl fmt::Display for Hex2 {
    fn fmt<W: fmt::Write>(&self, f: &mut fmt::Formatter<W>) -> fmt::Result {
        let mut digits = [0u8; 2];
        text::put_hex2(self.0, &mut digits, 0);
        write_digits(f, &digits)
    }
}

// A lamp word in sixteen digits, as in the listing.
#[derive(Clone, Copy)]
struct Hex16(u64);

impl fmt::Display for Hex16 {
    fn fmt<W: fmt::Write>(&self, f: &mut fmt::Formatter<W>) -> fmt::Result {
        let mut digits = [0u8; 16];
        text::put_hex16(self.0, &mut digits, 0);
        write_digits(f, &digits)
    }
}

#[derive(Clone, Copy)]
pub(crate) struct Decimal(pub(crate) usize);

impl fmt::Display for Decimal {
    fn fmt<W: fmt::Write>(&self, f: &mut fmt::Formatter<W>) -> fmt::Result {
        let mut digits = [0u8; 20];
        let end = text::put_decimal(self.0 as u64, &mut digits, 0);
        write_digits(f, script::first(&digits, end))
    }
}

fn write_digits<W: fmt::Write>(f: &mut fmt::Formatter<W>, digits: &[u8]) -> fmt::Result {
    for digit in digits {
        f.write_char(char::from(*digit))?;
    }
    Ok(())
}

// Octets parted by blanks, as an action has them.
#[derive(Clone, Copy)]
pub(crate) struct HexOctets<'a>(pub(crate) &'a [u8]);

impl fmt::Display for HexOctets<'_> {
    fn fmt<W: fmt::Write>(&self, f: &mut fmt::Formatter<W>) -> fmt::Result {
        let mut runs = self.0.chunk_by(|a, b| a == b);
        let Some(run) = runs.next() else {
            return Ok(());
        };
        write!(f, "{}", Run(run))?;
        for run in runs {
            write!(f, " {}", Run(run))?;
        }
        Ok(())
    }
}

// Like octets: each of them, or one with their number.
#[derive(Clone, Copy)]
struct Run<'a>(&'a [u8]);

impl fmt::Display for Run<'_> {
    fn fmt<W: fmt::Write>(&self, f: &mut fmt::Formatter<W>) -> fmt::Result {
        match self.0 {
            [b, ..] if self.0.len() >= COUNTED => {
                write!(f, "x{} {}", Decimal(self.0.len()), Hex2(*b))
            }
            [b, rest @ ..] => {
                write!(f, "{}", Hex2(*b))?;
                for c in rest {
                    write!(f, " {}", Hex2(*c))?;
                }
                Ok(())
            }
            [] => Ok(()),
        }
    }
}

#[derive(Clone, Copy)]
pub(crate) struct Address(pub(crate) u16);

impl fmt::Display for Address {
    fn fmt<W: fmt::Write>(&self, f: &mut fmt::Formatter<W>) -> fmt::Result {
        let [high, low] = self.0.to_be_bytes();
        write!(f, "{} {}", Hex2(high), Hex2(low))
    }
}

// A frame by its kind, SEQ and ADDR.
#[derive(Clone, Copy)]
pub(crate) struct FrameHead(pub(crate) Kind, pub(crate) u8, pub(crate) u16);

impl fmt::Display for FrameHead {
    fn fmt<W: fmt::Write>(&self, f: &mut fmt::Formatter<W>) -> fmt::Result {
        let kind = match self.0 {
            Kind::Message => "message",
            Kind::Ack => "ACK",
            Kind::Nak => "NAK",
        };
        write!(f, "{kind} {} {}", Hex2(self.1), Address(self.2))
    }
}

// Where the decoder is.
#[derive(Clone, Copy)]
pub(crate) struct DecoderPlace(pub(crate) Place);

impl fmt::Display for DecoderPlace {
    fn fmt<W: fmt::Write>(&self, f: &mut fmt::Formatter<W>) -> fmt::Result {
        f.write_str(match self.0 {
            Place::Idle => "idle",
            Place::LoneAa => "AA remembered",
            _ => "in a frame",
        })
    }
}

// What octet number `number` brought the decoder, and the octets that it keeps.
#[derive(Clone, Copy)]
pub(crate) struct Brought<'a> {
    pub(crate) found: Found,
    pub(crate) number: usize,
    pub(crate) kept: &'a [u8],
}

impl fmt::Display for Brought<'_> {
    fn fmt<W: fmt::Write>(&self, f: &mut fmt::Formatter<W>) -> fmt::Result {
        let n = Decimal(self.number);
        match self.found {
            Found::Nothing => Ok(()),
            Found::Refused(why, kind, seq, addr) => {
                let r = Decimal(usize::from(why.number()));
                let head = FrameHead(kind, seq, addr);
                write!(f, "\toctet {n}: refusal {r}, {head}")
            }
            Found::Message(seq, addr, filled) => {
                let head = FrameHead(Kind::Message, seq, addr);
                let info = script::first(self.kept, usize::from(filled));
                write!(f, "\toctet {n}: {head}, INFO {}", HexOctets(info))
            }
            Found::Ack(seq, addr) => write!(f, "\toctet {n}: {}", FrameHead(Kind::Ack, seq, addr)),
            Found::Nak(seq, addr, err) => {
                let head = FrameHead(Kind::Nak, seq, addr);
                write!(f, "\toctet {n}: {head}, ERR {}", Hex2(err))
            }
        }
    }
}

// How many octets were dropped, if any.
#[derive(Clone, Copy)]
pub(crate) struct Dropped(pub(crate) u16);

impl fmt::Display for Dropped {
    fn fmt<W: fmt::Write>(&self, f: &mut fmt::Formatter<W>) -> fmt::Result {
        match self.0 {
            0 => Ok(()),
            n => write!(f, "\tdropped {}", Decimal(usize::from(n))),
        }
    }
}

// The refusal of a call, if it is refused.
#[derive(Clone, Copy)]
pub(crate) struct RefusedCall(pub(crate) Option<Refusal>);

impl fmt::Display for RefusedCall {
    fn fmt<W: fmt::Write>(&self, f: &mut fmt::Formatter<W>) -> fmt::Result {
        match self.0 {
            None => Ok(()),
            Some(why) => {
                let r = Decimal(usize::from(why.number()));
                write!(f, "\tcall refused {r}")
            }
        }
    }
}

// The refusal of a frame or message that octet number `number` ended, and the parameter that the reply names, if any.
#[derive(Clone, Copy)]
pub(crate) struct RefusedAtOctet {
    pub(crate) number: usize,
    pub(crate) refusal: Option<Refusal>,
    pub(crate) parameter: u8,
}

impl fmt::Display for RefusedAtOctet {
    fn fmt<W: fmt::Write>(&self, f: &mut fmt::Formatter<W>) -> fmt::Result {
        let Some(why) = self.refusal else {
            return Ok(());
        };
        let n = Decimal(self.number);
        let r = Decimal(usize::from(why.number()));
        write!(f, "\toctet {n}: refusal {r}")?;
        match self.parameter {
            0 => Ok(()),
            parameter => write!(f, ", parameter {}", Decimal(usize::from(parameter))),
        }
    }
}

// An event, if there is one.
#[derive(Clone, Copy)]
pub(crate) struct Happened(pub(crate) Event);

impl fmt::Display for Happened {
    fn fmt<W: fmt::Write>(&self, f: &mut fmt::Formatter<W>) -> fmt::Result {
        match self.0 {
            Event::Nothing => Ok(()),
            Event::Ack(seq) => write!(f, "\tevent ACK {}", Hex2(seq)),
            Event::Nak(seq, err) => write!(f, "\tevent NAK {} {}", Hex2(seq), Hex2(err)),
        }
    }
}

// What became of the frame out, and where it goes again its octets.
#[derive(Clone, Copy)]
pub(crate) struct Ended<'a>(pub(crate) Link, pub(crate) &'a [u8]);

impl fmt::Display for Ended<'_> {
    fn fmt<W: fmt::Write>(&self, f: &mut fmt::Formatter<W>) -> fmt::Result {
        match self.0 {
            Link::Still => Ok(()),
            Link::Again => write!(f, "again {}", HexOctets(self.1)),
            Link::Heard => f.write_str("heard"),
            Link::Down => f.write_str("down"),
        }
    }
}

// What a second shows, or its refusal.
#[derive(Clone, Copy)]
pub(crate) struct SecondShown(pub(crate) HeldShown);

impl fmt::Display for SecondShown {
    fn fmt<W: fmt::Write>(&self, f: &mut fmt::Formatter<W>) -> fmt::Result {
        let row = self.0.row;
        let refusal = self.0.told.refusal;
        if refusal.is_some() {
            return write!(f, "{}", RefusedCall(refusal));
        }
        write!(
            f,
            ": plan {}, step {}, left {}, {} {}",
            Decimal(usize::from(self.0.plan)),
            Decimal(usize::from(row.step)),
            Decimal(usize::from(row.left)),
            Hex16(row.steady),
            Hex16(row.flashing)
        )
    }
}
