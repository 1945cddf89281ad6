// 01, "Cases": what the listing program prints, put as text into an output from `at` on. Each function gives the place after
// its text; where the text does not fit, nothing is stored and the place is `at`.

#![tactic(auto)]

pub mod run;

ghost use Rattle.std.specs.Prelude.{◌≡◌, ◌+◌, ◌≤◌, [], ◌∷◌, ◌++◌, length};
ghost use Rattle.octets.specs.Put.{Put, Stored};
ghost use Rattle.text.specs.Text.{octets_hex};
ghost use Rattle.printout.specs.Listing.{line_most, field_most, word_most, header, field, numbers, word_text, second_line, octets_line, reply_tail, reply_line, again_line, bad_line};

use lamps::Row;

// The longest line of a second: four numbers of 20 digits and a tab, two words of sixteen digits and what follows each.
const LINE_MOST: usize = 118;

// The same and, behind it, the word of a resend and its tab.
const HEAD_MOST: usize = 124;

// The longest end of a reply's line: a tab, five digits and a line feed.
const TAIL_MOST: usize = 7;

// "It prints a header".
#[tactic(auto, unfolding(printout::specs::Listing::header))]
pub fn put_header(out: &mut [u8], at: usize) -> usize
    ensures { Put header at out.old result out.new }
{
    octets::put(b"second\tplan\tstep\tleft\tsteady\tflashing\n", out, at)
}

// "for each T one line (seconds so far, plan, step, left, steady and flashing ..)"; 02, E6: and behind it that of a resend, of the octets in `again`.
pub fn put_second(n: u64, plan: u8, row: Row, again: &[u8], out: &mut [u8], at: usize) -> usize
    ensures { Put (second_line n plan row ++ again_line again.now) at out.old result out.new × (length (second_line n plan row) ≤ line_most) }
{
    let mut line = [0u8; LINE_MOST];
    let end = store_second(n, plan, row, &mut line);
    put_with_again(&line[..end], again, out, at)
}

// "for each call that wrote a reply `reply`, tab, octets in hex with spaces": a call that wrote none has no line. 02, E5: the number of octets
// dropped, "as a reply line's third field".
pub fn put_reply(s: &[u8], n: u16, out: &mut [u8], at: usize) -> usize
    ensures { Put (reply_line s.now n) at out.old result out.new }
{
    let mut tail = [0u8; TAIL_MOST];
    let end = store_tail(n, &mut tail);
    put_line(b"reply\t", s, &tail[..end], out, at)
}

// 02, E6: "prints a resend as `again`, tab, octets".
#[tactic(auto, unfolding(printout::specs::Listing::again_line))]
pub fn put_again(s: &[u8], out: &mut [u8], at: usize) -> usize
    ensures { Put (again_line s.now) at out.old result out.new }
{
    put_line(b"again\t", s, b"\n", out, at)
}

// "for a bad line `bad`, tab, its number from 1".
pub fn put_bad(n: u64, out: &mut [u8], at: usize) -> usize
    ensures { Put (bad_line n) at out.old result out.new × (length (bad_line n) ≤ line_most) }
{
    let mut line = [0u8; LINE_MOST];
    let end = store_bad(n, &mut line);
    octets::put(&line[..end], out, at)
}

// A second's line and the resend's, both or none.
fn put_with_again(line: &[u8], again: &[u8], out: &mut [u8], at: usize) -> usize
    requires { length line.now ≤ line_most }
    ensures { Put (line.now ++ again_line again.now) at out.old result out.new }
{
    if again.is_empty() {
        return octets::put(line, out, at);
    }
    let mut head = [0u8; HEAD_MOST];
    let p = octets::put(line, &mut head, 0);
    let end = octets::put(b"again\t", &mut head, p);
    put_line(&head[..end], again, b"\n", out, at)
}

// Octets with what stands before and behind them in their line; where there are none there is no line.
fn put_line(head: &[u8], s: &[u8], tail: &[u8], out: &mut [u8], at: usize) -> usize
    ensures { Put (octets_line head.now s.now tail.now) at out.old result out.new }
{
    if s.is_empty() {
        return at;
    }
    // Three places for each octet but the last, which has no blank after it. In 128 bits no sum of lengths wraps.
    let end = at as u128 + head.len() as u128 + 3 * s.len() as u128 - 1 + tail.len() as u128;
    if (out.len() as u128) < end {
        return at;
    }
    store_line(head, s, tail, out, at)
}

fn store_second(n: u64, plan: u8, row: Row, line: &mut [u8; LINE_MOST]) -> usize
    ensures { Stored (second_line n plan row) 0 line.old result line.new }
{
    let p = store_numbers(n, plan, row, line);
    let q = store_word(row.steady, b'\t', line, p);
    store_word(row.flashing, b'\n', line, q)
}

fn store_numbers(n: u64, plan: u8, row: Row, line: &mut [u8; LINE_MOST]) -> usize
    ensures { Stored (numbers n plan row) 0 line.old result line.new × (result ≤ 84) }
{
    let p = store_field(n, line, 0);
    let q = store_field(plan as u64, line, p);
    let t = store_field(row.step as u64, line, q);
    store_field(row.left as u64, line, t)
}

// A number and the tab after it.
fn store_field(n: u64, line: &mut [u8], at: usize) -> usize
    requires { at + field_most ≤ length line.old }
    ensures { Stored (field n) at line.old result line.new × (result ≤ at + field_most) }
{
    let p = text::put_decimal(n, line, at);
    octets::put(b"\t", line, p)
}

// 02, E2: "The listing prints sixteen digits a word": a lamp word and what follows it.
fn store_word(x: u64, mark: u8, line: &mut [u8], at: usize) -> usize
    requires { at + word_most ≤ length line.old }
    ensures { Stored (word_text x ++ mark ∷ []) at line.old result line.new × (result ≤ at + word_most) }
{
    let p = text::put_hex16(x, line, at);
    octets::put(&[mark], line, p)
}

// The third field, with the tab before it, and the end of the line.
fn store_tail(n: u16, tail: &mut [u8; TAIL_MOST]) -> usize
    ensures { Stored (reply_tail n) 0 tail.old result tail.new }
{
    let p = octets::put(b"\t", tail, 0);
    let q = text::put_decimal(n as u64, tail, p);
    octets::put(b"\n", tail, q)
}

fn store_line(head: &[u8], s: &[u8], tail: &[u8], out: &mut [u8], at: usize) -> usize
    requires { at + length (head.now ++ octets_hex s.now ++ tail.now) ≤ length out.old }
    ensures { Stored (head.now ++ octets_hex s.now ++ tail.now) at out.old result out.new }
{
    let p = octets::put(head, out, at);
    let q = text::put_octets(s, out, p);
    octets::put(tail, out, q)
}

fn store_bad(n: u64, line: &mut [u8; LINE_MOST]) -> usize
    ensures { Stored (bad_line n) 0 line.old result line.new }
{
    let p = octets::put(b"bad\t", line, 0);
    let q = text::put_decimal(n, line, p);
    octets::put(b"\n", line, q)
}
