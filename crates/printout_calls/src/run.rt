// 01, "Cases": the listing itself: its start, what each line of the input does to the controller, and the text that it adds.
ghost use Rattle.std.specs.Prelude.{◌≡◌};
ghost use Rattle.controller.specs.State.{joined};
ghost use Rattle.controller.specs.Seconds.{started_of, StartsWith};
ghost use Rattle.octets.specs.Put.{Put};
ghost use Rattle.printout.specs.Listing.{octet_line};
ghost use Rattle.printout.specs.Run.{own, listing_wait, Listed, is_old, start_asked, run_start, second_made, BadWith, octet_made, line_made};

use controller::{HeldAnswer, Link};
use line::LineFound;
use plan::Which;
use printout::Run;

// "The listing program starts fresh at address 0001".
const OWN: u16 = 0x0001;

// 02, E6: "The listing has T = 10".
const WAIT: u8 = 10;

// The octets of the one word that the program knows, `old`.
pub const WORD_LEN: usize = 3;

// 02, E1: "the plain start takes the new one"; the word `old` asks for the other. `words` is how many words stand after the
// program's name, and `word` is the first of them. `None`: the program does not know them.
#[tactic(auto, unfolding(printout::specs::Run::start_asked))]
pub fn start_asked(words: usize, word: &[u8]) -> Option<Which>
    ensures { result ≡ start_asked words word.now }
{
    match words {
        0 => Some(Which::New),
        1 if is_old(word) => Some(Which::Old),
        _ => None,
    }
}

// Whoever lends room for the word lends `WORD_LEN` octets, so that number is asked too.
#[tactic(auto, unfolding(printout::specs::Run::is_old))]
fn is_old(word: &[u8]) -> bool
    ensures { result ≡ is_old word.now }
{
    word.len() == WORD_LEN && matches!(word, b"old")
}

// A fresh start, with nothing in the text.
pub fn run_start(which: Which) -> Run
    ensures { result ≡ run_start which }
{
    Run {
        state: started(which).state,
        seconds: 0,
        used: 0,
    }
}

fn started(which: Which) -> HeldAnswer
    ensures { StartsWith (started_of which own listing_wait) result }
{
    match which {
        Which::New => controller_calls::fresh(OWN, WAIT),
        Which::Old => controller_calls::fresh_old(OWN, WAIT),
    }
}

// What the line that has ended does, if one has; its text is put where there is room for it.
pub fn on_line(
    run: Run,
    f: Option<LineFound>,
    kept: &mut [u8],
    book: &mut [u8],
    out: &mut [u8],
    text: &mut [u8],
) -> Run
    ensures { Listed (line_made f (joined run.state kept.old) run.seconds book.old out.old) kept.old run.used text.old result kept.new book.new out.new text.new }
{
    match f {
        None => run,
        Some(LineFound::Second) => on_second(run, kept, book, out, text),
        Some(LineFound::Octet(b)) => on_octet(run, b, kept, book, out, text),
        Some(LineFound::Bad(n)) => on_bad(run, n, text),
    }
}

// "`T` is a second": the second call, with the book as it is; 02, E6: and what it sent again.
fn on_second(run: Run, kept: &[u8], book: &[u8], out: &mut [u8], text: &mut [u8]) -> Run
    ensures { Listed (second_made (joined run.state kept.now) run.seconds book.now out.old) kept.now run.used text.old result kept.now book.now out.new text.new }
{
    let n = run.seconds;
    let t = controller_calls::second(run.state, kept, book, out);
    let sent = &out[..t.told.count];
    Run {
        state: t.state,
        seconds: n.wrapping_add(1),
        used: crate::put_second(n, t.plan, t.row, sent, text, run.used),
    }
}

// "an octet": the octet call, what it wrote, a reply or the frame out once more, and the number of octets dropped that it told.
fn on_octet(
    run: Run,
    b: u8,
    kept: &mut [u8],
    book: &mut [u8],
    out: &mut [u8],
    text: &mut [u8],
) -> Run
    ensures { Listed (octet_made (joined run.state kept.old) run.seconds book.old out.old b) kept.old run.used text.old result kept.new book.new out.new text.new }
{
    let a = controller_calls::octet(run.state, kept, book, out, b);
    let told = a.told;
    let written = &out[..told.count];
    Run {
        state: a.state,
        used: put_written(told.link, written, told.dropped, text, run.used),
        ..run
    }
}

// What an octet call wrote while the link stands so.
#[tactic(auto, unfolding(printout::specs::Listing::octet_line))]
fn put_written(link: Link, s: &[u8], n: u16, out: &mut [u8], at: usize) -> usize
    ensures { Put (octet_line link s.now n) at out.old result out.new }
{
    match link {
        Link::Again => crate::put_again(s, out, at),
        _ => crate::put_reply(s, n, out, at),
    }
}

#[tactic(auto, unfolding(printout::specs::Run::bad_said))]
fn on_bad(run: Run, n: u64, text: &mut [u8]) -> Run
    ensures { BadWith run n text.old result text.new }
{
    Run {
        used: crate::put_bad(n, text, run.used),
        ..run
    }
}
