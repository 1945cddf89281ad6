// Numbers and octets as text, put into an output from `at` on. Each function gives the place after its text; where the
// text does not fit, nothing is stored and the place is `at`. Text that stands fixed is put by `octets::put`.

#![tactic(auto)]

ghost use Rattle.std.specs.Prelude.{◌≡◌, ◌+◌, ◌≤◌, ◌<◌, length, take};
ghost use Rattle.octets.specs.Put.{Put, Stored};
ghost use Rattle.text.specs.Text.{digit, digits, digits_most, hex2, hex16, places, decimal, blank_hex2, spaced, octets_hex};

// The digits of the longest number here, 2^64 - 1 in decimal.
const DIGITS_MOST: usize = 20;

// An octet as two hexadecimal digits.
pub fn put_hex2(b: u8, out: &mut [u8], at: usize) -> usize
    ensures { Put (hex2 b) at out.old result out.new }
{
    put_digits(u64::from(b), 16, 2, out, at)
}

// A word of 64 bits as sixteen hexadecimal digits.
pub fn put_hex16(x: u64, out: &mut [u8], at: usize) -> usize
    ensures { Put (hex16 x) at out.old result out.new }
{
    put_digits(x, 16, 16, out, at)
}

// A number in decimal, with no zeros in front.
pub fn put_decimal(n: u64, out: &mut [u8], at: usize) -> usize
    ensures { Put (decimal n) at out.old result out.new }
{
    put_digits(n, 10, places(n), out, at)
}

// Octets as two hexadecimal digits each, parted by blanks.
pub fn put_octets(s: &[u8], out: &mut [u8], at: usize) -> usize
    ensures { Put (octets_hex s.now) at out.old result out.new }
{
    if out.len() < at {
        return at;
    }
    // Three places for each octet but the last, which has no blank after it.
    if (out.len() - at + 1) / 3 < s.len() {
        return at;
    }
    store_octets(s, out, at)
}

// The last `count` digits of n.
fn put_digits(n: u64, base: u64, count: usize, out: &mut [u8], at: usize) -> usize
    requires { (0 < base) × (base ≤ 16) × (count ≤ digits_most) }
    ensures { Put (digits base count n) at out.old result out.new }
{
    let mut text = [0u8; DIGITS_MOST];
    store_digits(n, base, count, &mut text);
    octets::put(&text[..count], out, at)
}

// The digits come from the last to the first.
fn store_digits(n: u64, base: u64, count: usize, text: &mut [u8])
    requires { (0 < base) × (base ≤ 16) × (count ≤ length text.old) }
    ensures { take count text.new ≡ digits base count n }
{
    let mut rest = n;
    for i in (0..count).rev() {
        text[i] = digit((rest % base) as u8);
        rest /= base;
    }
}

fn digit(d: u8) -> u8
    requires { d < 16 }
    ensures { result ≡ digit d }
{
    match d {
        0..=9 => b'0' + d,
        _ => b'A' + (d - 10),
    }
}

// How many digits a number has in decimal.
fn places(n: u64) -> usize
    ensures { (result ≡ places n) × (result ≤ digits_most) }
{
    let mut rest = n;
    let mut count: usize = 1;
    while rest >= 10 {
        rest /= 10;
        count += 1;
    }
    count
}

fn store_octets(s: &[u8], out: &mut [u8], at: usize) -> usize
    requires { at + length (octets_hex s.now) ≤ length out.old }
    ensures { Stored (octets_hex s.now) at out.old result out.new }
{
    match s.split_first() {
        None => at,
        Some((first, rest)) => {
            let p = put_hex2(*first, &mut *out, at);
            store_spaced(rest, out, p)
        }
    }
}

// Each octet with a blank before it.
fn store_spaced(s: &[u8], out: &mut [u8], at: usize) -> usize
    requires { at + length (spaced s.now) ≤ length out.old }
    ensures { Stored (spaced s.now) at out.old result out.new }
{
    let mut p = at;
    for b in s {
        p = store_blank_hex2(*b, &mut *out, p);
    }
    p
}

fn store_blank_hex2(b: u8, out: &mut [u8], at: usize) -> usize
    requires { at + length (blank_hex2 b) ≤ length out.old }
    ensures { Stored (blank_hex2 b) at out.old result out.new }
{
    let p = octets::put(b" ", &mut *out, at);
    put_hex2(b, out, p)
}
