// The controller's calls made aloud: what was handed in, and what came back.
// A write that fails within a line is let go: the one that ends the line tells.
use crate::say::{
    Address, Decimal, Dropped, Ended, Happened, Hex2, HexOctets, RefusedAtOctet, RefusedCall,
    SecondShown,
};
use crate::script;
use crate::words::CallWord;
use controller::{Event, Held, HeldShown, KEPT_LEN, Link, OUTPUT_LEN, Told};
use frame_calls::writer;
use plan::Which;
use record::BOOK_LEN;

// The controller's own address at first, and its T where none is given.
const OWN: u16 = 0x0001;

const WAIT: u8 = 10;

// How often a message is sent before SEQ comes round.
const SILENT: u8 = 255;

// The book has an octet to spare, so that one too long can be lent.
const BOOK_MOST: usize = BOOK_LEN + 1;

// The controller's state, the octets and the book that are lent to its calls, and how much of book and output.
#[derive(Clone, Copy)]
pub(crate) struct Post {
    state: Held,
    kept: [u8; KEPT_LEN],
    book: [u8; BOOK_MOST],
    book_lent: usize,
    output_lent: usize,
}

impl Post {
    pub(crate) fn fresh() -> Post {
        Post {
            state: controller_calls::fresh(OWN, WAIT).state,
            kept: [0; KEPT_LEN],
            book: [0; BOOK_MOST],
            book_lent: BOOK_LEN,
            output_lent: OUTPUT_LEN,
        }
    }

    pub(crate) fn done(&mut self, rt: &impl Print, w: CallWord, o: &[u8], output: &mut [u8]) {
        let own = self.state.own;
        let out = script::first_mut(output, self.output_lent);
        match w {
            CallWord::Fresh => self.start(rt, Which::New, o),
            CallWord::Earlier => self.start(rt, Which::Old, o),
            CallWord::Take => self.take_aloud(rt, o, out),
            CallWord::Send => self.send(rt, own, o, out),
            CallWord::Broadcast => self.send(rt, controller::ALL, o, out),
            CallWord::Keep => self.keep(rt, o, out),
            CallWord::Offer => self.offer(rt, o, out),
            CallWord::Wait => self.wait(rt, o.len(), out),
            CallWord::Quiet => self.line_idle(rt),
            CallWord::Lend => self.lend(rt, o),
        }
    }

    // A fresh start with this built-in plan: the own address is given, and a T behind it or none.
    fn start(&mut self, rt: &impl Print, which: Which, o: &[u8]) {
        let own = octets::word_at(o, 0);
        let wait = o.get(2).copied().unwrap_or(WAIT);
        let (f, plan) = match which {
            Which::New => (controller_calls::fresh(own, wait), ""),
            Which::Old => (
                controller_calls::fresh_old(own, wait),
                " with the old plan 0",
            ),
        };
        self.state = f.state;
        let _ = print!(rt; "\tfresh {}{plan}", Address(own));
        if wait != WAIT {
            let _ = print!(rt; ", T = {}", Decimal(usize::from(wait)));
        }
        let _ = print!(rt; "{}", RefusedCall(f.told.refusal));
    }

    // Book and output are from now on so long, two octets each.
    fn lend(&mut self, rt: &impl Print, o: &[u8]) {
        self.book_lent = usize::from(octets::word_at(o, 0));
        self.output_lent = usize::from(octets::word_at(o, 2));
        let _ = print!(rt;
            "\tlent a book of {} and an output of {}",
            Decimal(self.book_lent),
            Decimal(self.output_lent)
        );
    }

    fn take_aloud(&mut self, rt: &impl Print, o: &[u8], out: &mut [u8]) {
        let _ = print!(rt; "\ttake {}", HexOctets(o));
        self.take(rt, o, out);
    }

    // Hands the octets over one by one; what the last of them tells of octets dropped is said.
    fn take(&mut self, rt: &impl Print, o: &[u8], out: &mut [u8]) {
        let mut dropped = 0;
        for (number, b) in (1..=o.len()).zip(o) {
            let told = self.octet(*b, &mut *out);
            say_told(rt, told, number, out);
            dropped = told.dropped;
        }
        let _ = print!(rt; "{}", Dropped(dropped));
    }

    // The octet call.
    fn octet(&mut self, b: u8, out: &mut [u8]) -> Told {
        let book = script::first_mut(&mut self.book, self.book_lent);
        let a = controller_calls::octet(self.state, &mut self.kept, book, out, b);
        self.state = a.state;
        a.told
    }

    // A message frame to this address: the octets given are its SEQ and its INFO.
    fn send(&mut self, rt: &impl Print, addr: u16, o: &[u8], out: &mut [u8]) {
        let _ = print!(rt; "\tsend {}: {}", Address(addr), HexOctets(o));
        self.hand_over(rt, addr, octets::octet_at(o, 0), script::rest(o, 1), out);
    }

    fn hand_over(&mut self, rt: &impl Print, addr: u16, seq: u8, info: &[u8], out: &mut [u8]) {
        let mut frame = [0u8; OUTPUT_LEN];
        let count = writer::write_message(seq, addr, info, &mut frame, 0).unwrap_or(0);
        self.take(rt, script::first(&frame, count), out);
    }

    // A message 256 times, each with the SEQ after that of the one before, since with the same SEQ it would be a repeat; what comes of all but the
    // last is not said.
    fn keep(&mut self, rt: &impl Print, o: &[u8], out: &mut [u8]) {
        let own = self.state.own;
        let seq = octets::octet_at(o, 0);
        let info = script::rest(o, 1);
        for i in 0..SILENT {
            self.unheard_pair(seq.wrapping_add(i), info, &mut *out);
        }
        let last = seq.wrapping_add(SILENT);
        let _ = print!(rt;
            "\t255 times in silence, then\tsend {}: {} {}",
            Address(own),
            Hex2(last),
            HexOctets(info)
        );
        self.hand_over(rt, own, last, info, out);
    }

    // A message frame to its own address and the ACK of its reply, whatever is told.
    fn unheard_pair(&mut self, seq: u8, info: &[u8], out: &mut [u8]) {
        let own = self.state.own;
        let reply = self.state.seq;
        let mut frame = [0u8; OUTPUT_LEN];
        let count = writer::write_message(seq, own, info, &mut frame, 0).unwrap_or(0);
        self.swallow(script::first(&frame, count), &mut *out);
        let count = writer::write_ack(reply, own, &mut frame, 0).unwrap_or(0);
        self.swallow(script::first(&frame, count), out);
    }

    fn swallow(&mut self, o: &[u8], out: &mut [u8]) {
        for b in o {
            self.octet(*b, &mut *out);
        }
    }

    fn line_idle(&mut self, rt: &impl Print) {
        let a = controller_calls::line_idle(self.state, &self.kept);
        self.state = a.state;
        let told = a.told;
        let _ = print!(rt;
            "\tline-idle call{}{}",
            RefusedCall(told.refusal),
            Dropped(told.dropped)
        );
    }

    // A message of the host's own.
    fn offer(&mut self, rt: &impl Print, o: &[u8], out: &mut [u8]) {
        let a = controller_calls::offer(self.state, &mut self.kept, o, &mut *out);
        self.state = a.state;
        let told = a.told;
        let _ = print!(rt; "\toffer {}{}", HexOctets(o), RefusedCall(told.refusal));
        if told.refusal.is_none() {
            let _ = print!(rt; "\tsent {}", HexOctets(script::first(out, told.count)));
        }
    }

    // So many seconds; what the link does in each is said, and what the last of them shows.
    fn wait(&mut self, rt: &impl Print, count: usize, out: &mut [u8]) {
        let _ = print!(rt; "\twait {}", Decimal(count));
        let mut last = None;
        for number in 1..=count {
            last = Some(self.second(rt, number, &mut *out));
        }
        if let Some(shown) = last {
            let _ = print!(rt; "{}", SecondShown(shown));
        }
    }

    fn second(&mut self, rt: &impl Print, number: usize, out: &mut [u8]) -> HeldShown {
        let book = script::first(&self.book, self.book_lent);
        let w = controller_calls::second(self.state, &self.kept, book, &mut *out);
        self.state = w.state;
        let link = w.told.link;
        if !matches!(link, Link::Still) {
            let ended = Ended(link, script::first(out, w.told.count));
            let _ = print!(rt; ", after {} {ended}", Decimal(number));
        }
        w
    }
}

// What octet number `number` told, and what it wrote.
fn say_told(rt: &impl Print, told: Told, number: usize, out: &[u8]) {
    // Most octets have nothing to say, and a `print!` of nothing still costs its buffer.
    if told.refusal.is_some() {
        let refused = RefusedAtOctet {
            number,
            refusal: told.refusal,
            parameter: told.parameter,
        };
        let _ = print!(rt; "{refused}");
    }
    if !matches!(told.event, Event::Nothing) {
        let _ = print!(rt; "{}", Happened(told.event));
    }
    let written = script::first(out, told.count);
    let _ = match told.link {
        Link::Still if written.is_empty() => Ok(()),
        Link::Still => print!(rt; "\treply {}", HexOctets(written)),
        link => print!(rt; "\t{}", Ended(link, written)),
    };
}
