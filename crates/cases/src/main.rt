// Runs the worked cases that stand on standard input, a line for each, and prints what was done and what came back. Output that
// can't be written, input that can't be read and input that is too long are told on standard error.
//
// A line has a name and then actions, parted by tabs. An action is a word in small letters and, after a blank, octets in
// hexadecimal: `x256 AA` is 256 times AA. A word that does not stand below is named as unknown, and nothing is done for it.
// Each case starts with a fresh decoder and with an output of 544 octets, all of them 55; with a controller fresh at address
// 0001 and T = 10, and with an empty book.
//
//     read OCTETS          the decoder takes the octets; with none given, those that were written last
//     idle                 the decoder's line-idle call
//     unsound              the decoder is an impossible one: at INFO, in an ACK
//     dropped NUMBER       so many octets were dropped so far, given as two octets
//     place AT             the next frame is written from this place of the output on, given as two octets
//     message SEQ INFO     the frame writers, at own address 0001
//     ack SEQ
//     nak SEQ ERR
//     compose CODE FIELDS  the message writer: a code and its fields' values, two octets each
//     output               the output is shown
//
//     fresh ADDR T         the controller starts fresh at this address, with this T, or with 10 where none is given
//     earlier ADDR T       the same with the old built-in plan
//     take OCTETS          the controller is handed the octets, one a call
//     send SEQ INFO        it is handed a message frame for its address, or
//     broadcast SEQ INFO   for FFFF, or
//     keep SEQ INFO        256 for its address, each with the SEQ after that of the one before, of which the last is shown; the
//                          replies to the others are acknowledged
//     offer INFO           it is handed a message of the host's own
//     wait OCTETS          as many second calls as octets are given; what the last of them shows is told
//     quiet                its line-idle call
//     lend BOOK OUTPUT     from now on it is lent so much of book and output, two octets each
//
// Of what a call of the controller writes `reply` tells the octets, or `again` where they are the frame out once more; `heard` and `down`
// tell how a frame out ended.

#![tactic(auto)]

mod bench;
mod control;
mod input;
mod reading;
mod say;
mod script;
mod words;
mod writing;

use bench::Bench;
use control::Post;
use controller::OUTPUT_LEN;
use std::io;
use words::Word;

// The octets of an input at most.
const INPUT_MOST: usize = 65536;

// What stands in the output at first.
const BEFORE: u8 = 0x55;

// What a case works on.
#[derive(Clone, Copy)]
struct Desk {
    bench: Bench,
    post: Post,
    out: [u8; OUTPUT_LEN],
}

// What can't be told on standard error can't be told to anybody.
fn main(rt: HostRuntime) {
    let mut s = [0u8; INPUT_MOST];
    let input = input::read_all(&mut rt.stdin(), &mut s);
    let ended = input.ended;
    let _ = match (cases(&rt, input.octets, ended.is_ok()), ended) {
        (Err(_), _) => eprintln!(rt; "cases: the output can't be written"),
        (Ok(()), Err(e)) => eprintln!(rt; "cases: {e}"),
        (Ok(()), Ok(())) => Ok(()),
    };
}

// Runs the cases. Of an input that is not whole the last line may have been cut off, and is not run.
fn cases(rt: &impl Print, s: &[u8], whole: bool) -> io::Result<()> {
    for line in s.split_inclusive(|c| *c == b'\n') {
        let ended = line.strip_suffix(b"\n");
        if whole || ended.is_some() {
            case(rt, ended.unwrap_or(line))?;
        }
    }
    Ok(())
}

// Each action is carried out, whatever becomes of the writes within the line: the one that ends it tells.
fn case(rt: &impl Print, s: &[u8]) -> io::Result<()> {
    let mut desk = Desk {
        bench: Bench::fresh(),
        post: Post::fresh(),
        out: [BEFORE; OUTPUT_LEN],
    };
    let mut parts = s.split(|c| *c == b'\t');
    let _ = rt.write_all(parts.next().unwrap_or(s));
    for part in parts {
        desk.action(rt, part);
    }
    rt.write_all(b"\n")
}

impl Desk {
    fn action(&mut self, rt: &impl Print, s: &[u8]) {
        let mut room = [0u8; OUTPUT_LEN];
        let end = s.iter().position(|c| *c == b' ').unwrap_or(s.len());
        let word = script::first(s, end);
        let o = script::octets(script::rest(s, end), &mut room);
        match words::find(word) {
            Some(Word::Frame(w)) => self.bench.done(rt, w, o, &mut self.out),
            Some(Word::Call(w)) => self.post.done(rt, w, o, &mut self.out),
            None => {
                let _ = rt.write_all(b"\tunknown word: ");
                let _ = rt.write_all(word);
            }
        }
    }
}
