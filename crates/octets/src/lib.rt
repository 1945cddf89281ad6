// What several crates say of octets, said once.

#![tactic(auto)]

pub mod refusal;

ghost use Rattle.std.specs.Prelude.{◌≡◌, ◌+◌, leb};
ghost use Rattle.octets.specs.Octet.{octet_at};
ghost use Rattle.octets.specs.Word.{high_of, low_of, word_of, word_at};
ghost use Rattle.octets.specs.ExclusiveOr.{exclusive_or};
ghost use Rattle.octets.specs.Put.{Put};
ghost use Rattle.octets.specs.Part.{PartFrom, code_len};
ghost use Rattle.octets.specs.Same.{same};

// The octets of a message's code, before its fields.
pub const CODE_LEN: usize = 2;

// The high octet of a number of two octets.
pub fn high(x: u16) -> u8
    ensures { result ≡ high_of x }
{
    x.to_be_bytes()[0]
}

// The low octet of a number of two octets.
pub fn low(x: u16) -> u8
    ensures { result ≡ low_of x }
{
    x.to_be_bytes()[1]
}

// Two octets as one number, high octet first.
pub fn word(hi: u8, lo: u8) -> u16
    ensures { result ≡ word_of hi lo }
{
    u16::from_be_bytes([hi, lo])
}

// The octet at a place. Octets that are not there are 0, so that every place can be asked for.
pub fn octet_at(s: &[u8], at: usize) -> u8
    ensures { result ≡ octet_at s.now at }
{
    s.get(at).copied().unwrap_or(0)
}

// The two octets from a place on as one number.
pub fn word_at(s: &[u8], at: usize) -> u16
    ensures { result ≡ word_at s.now at }
{
    match s.get(at) {
        Some(hi) => word(*hi, octet_at(s, at + 1)),
        None => 0,
    }
}

// The exclusive or of the octets of `s`, going on from `start`.
pub fn exclusive_or(start: u8, s: &[u8]) -> u8
    ensures { result ≡ exclusive_or start s.now }
{
    s.iter().fold(start, |x, b| x ^ *b)
}

// Are the octets the same, as many and each of them?
pub fn same(a: &[u8], b: &[u8]) -> bool
    ensures { result ≡ same a.now b.now }
{
    a == b
}

// Stores the octets of `s` in `out` from `at` on and gives the place after them; where they do not fit, nothing is
// stored and the place is `at`.
pub fn put(s: &[u8], out: &mut [u8], at: usize) -> usize
    ensures { Put s.now at out.old result out.new }
{
    if !room(out.len(), at, s.len()) {
        return at;
    }
    let end = at + s.len();
    out[at..end].copy_from_slice(s);
    end
}

// Is there room for n octets from `at` on in an output of `len`?
pub fn room(len: usize, at: usize, n: usize) -> bool
    ensures { result ≡ leb (at + n) len }
{
    at <= len && n <= len - at
}

// 01, "Messages": "the octets after the two of the code are handed on as a part".
pub fn body<'a>(info: &'a [u8]) -> &'a [u8]
    ensures { PartFrom info.entry code_len result }
{
    &info[CODE_LEN.min(info.len())..]
}
