// 01, "Cases": the listing program. It "starts fresh at address 0001 with an empty book and reads lines" from standard input
// to its end, of whatever length, and prints what the controller shows and replies: all it has whenever it has read all there
// is, so that somebody who types lines sees each answered at once. 02, E1: with no word it takes the plain start, and with the
// word `old` the one that names the old built-in plan. Output that can't be written and input that can't be read end the listing
// and are told on standard error.

#![tactic(auto)]

ghost use Rattle.std.specs.Prelude.{◌≤◌, ◌≡◌, Some};
ghost use Rattle.octets.specs.Put.{Stored};
ghost use Rattle.controller.specs.State.{joined};
ghost use Rattle.printout.specs.Run.{line_made};
ghost use Rattle.listing.specs.Room.{Room, text_len};

use controller::{KEPT_LEN, OUTPUT_LEN};
use line::{Line, LineFound};
use plan::Which;
use printout::Run;
use printout_calls::run;
use printout_calls::run::WORD_LEN;
use record::BOOK_LEN;
use std::env::{Env, FillError};
use std::fmt;
use std::io::Read;

// The octets of one read at most.
const BLOCK_LEN: usize = 4096;

// The text that is kept before it is written out, and how much of it may be filled where a line begins: any line then fits.
const TEXT_LEN: usize = 8192;

const HALF: usize = 4096;

// Why there is no listing, or no more of it.
#[derive(Clone, Copy)]
enum Failure {
    Words,
    Input,
    Output,
}

impl fmt::Display for Failure {
    fn fmt<W: fmt::Write>(&self, f: &mut fmt::Formatter<W>) -> fmt::Result {
        f.write_str(match self {
            Failure::Words => "usage: listing [old]",
            Failure::Input => "listing: the input can't be read",
            Failure::Output => "listing: the output can't be written",
        })
    }
}

// The listing under way: the line that is being read, what the lines before it made, and the text that is not yet written out.
#[derive(Drop)]
struct Listing {
    line: Line,
    run: Run,
    kept: [u8; KEPT_LEN],
    book: [u8; BOOK_LEN],
    out: [u8; OUTPUT_LEN],
    text: [u8; TEXT_LEN],
}

// Where the failure can't be told there is nobody left to tell.
fn main(rt: HostRuntime) {
    if let Err(failure) = listed(&rt, &mut rt.stdin()) {
        let _ = rt.eprintln(failure);
    }
}

// Of a word that is too long for the room given nothing is handed out, and an empty one is not known.
fn listed(rt: &(impl Env + Print), input: &mut impl Read) -> Result<(), Failure> {
    let mut word = [0u8; WORD_LEN];
    let n = rt.arg(1, &mut word).unwrap_or(0);
    let which = run::start_asked(words_given(rt), &word[..n]).ok_or(Failure::Words)?;
    list(rt, input, which)
}

// How many words stand after the program's name. They are counted one by one, since nothing says how many there are.
fn words_given(rt: &impl Env) -> usize {
    (1..=usize::MAX)
        .take_while(|place| is_given(rt, *place))
        .count()
}

// Whether there is a word at this place. No room is lent for it, since it is not wanted: one that is there may be too long.
fn is_given(rt: &impl Env, place: usize) -> bool {
    !matches!(rt.arg(place, &mut []), Err(FillError::NotPresent))
}

#[tactic(auto, unfolding(printout::specs::Listing::header))]
fn list(rt: &impl Print, input: &mut impl Read, which: Which) -> Result<(), Failure> {
    let mut text = [0u8; TEXT_LEN];
    let used = printout_calls::put_header(&mut text, 0);
    let mut listing = Listing {
        line: line::line_start(),
        run: Run {
            used,
            ..run::run_start(which)
        },
        kept: [0; KEPT_LEN],
        book: [0; BOOK_LEN],
        out: [0; OUTPUT_LEN],
        text,
    };
    listing.read_all(rt, input)
}

impl Listing {
    // Reads to the end. A proved loop has to end, and nothing says that an input does, so the turns are counted, to a number
    // that no run reaches. A read may wait for somebody to type, so all there is to see is written out before it. Where a read
    // fails the line under way was cut off, and nobody knows what it was to be.
    fn read_all(&mut self, rt: &impl Print, input: &mut impl Read) -> Result<(), Failure>
        requires { Room self.old.run self.old.text }
    {
        for _ in 0..u64::MAX {
            self.write_out(rt)?;
            let mut block = [0u8; BLOCK_LEN];
            let n = input.read(&mut block).map_err(|_| Failure::Input)?;
            if n == 0 {
                return self.end(rt);
            }
            self.take(rt, &block[..n])?;
        }
        Ok(())
    }

    // Takes the octets of one read.
    fn take(&mut self, rt: &impl Print, s: &[u8]) -> Result<(), Failure>
        requires { Room self.old.run self.old.text }
        ensures { Room self.new.run self.new.text }
    {
        for o in s {
            let taken = line::line_octet(self.line, *o);
            self.line = taken.line;
            if let Some(found) = taken.found {
                self.end_line(rt, found)?;
            }
        }
        Ok(())
    }

    // The end of the input ends the last line, which may lack its line feed.
    fn end(&mut self, rt: &impl Print) -> Result<(), Failure>
        requires { Room self.old.run self.old.text }
        ensures { Room self.new.run self.new.text }
    {
        if let Some(found) = line::line_end(self.line) {
            self.end_line(rt, found)?;
        }
        self.write_out(rt)
    }

    // A line that has ended. The text is written out where more than half of it is filled.
    fn end_line(&mut self, rt: &impl Print, found: LineFound) -> Result<(), Failure>
        requires { Room self.old.run self.old.text }
        ensures { Room self.new.run self.new.text }
    {
        self.print_line(found);
        if self.run.used <= HALF {
            return Ok(());
        }
        self.write_out(rt)
    }

    // The text of a line is never dropped: with half the text free there is room for it.
    fn print_line(&mut self, found: LineFound)
        requires { Room self.old.run self.old.text }
        ensures { Stored (line_made (Some found) (joined self.old.run.state self.old.kept) self.old.run.seconds self.old.book self.old.out).said.text self.old.run.used self.old.text self.new.run.used self.new.text }
    {
        self.run = run::on_line(
            self.run,
            Some(found),
            &mut self.kept,
            &mut self.book,
            &mut self.out,
            &mut self.text,
        );
    }

    // Writes the text out.
    fn write_out(&mut self, rt: &impl Print) -> Result<(), Failure>
        requires { self.old.run.used ≤ text_len }
        ensures empty { self.new.run.used ≡ 0 }
        ensures room { Room self.new.run self.new.text }
    {
        let used = self.run.used;
        self.run.used = 0;
        rt.write_all(&self.text[..used])
            .map_err(|_| Failure::Output)
    }
}
