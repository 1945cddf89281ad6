// The octets of an action, read from its text, and parts of octets that are there whatever is asked for.
ghost use Rattle.std.specs.Prelude.{◌≤◌, ◌<◌, IfSome, length};

// The first n octets, or all where there are fewer.
pub(crate) fn first(s: &[u8], n: usize) -> &[u8] {
    s.get(..n).unwrap_or(s)
}

pub(crate) fn first_mut(s: &mut [u8], n: usize) -> &mut [u8]
    ensures { length result.now ≤ n }
{
    let end = n.min(s.len());
    &mut s[..end]
}

// All but the first n octets, or all where there are fewer.
pub(crate) fn rest(s: &[u8], n: usize) -> &[u8] {
    s.get(n..).unwrap_or(s)
}

// What a digit is that comes next.
#[derive(Clone, Copy)]
enum Next {
    // The first of an octet,
    High,
    // the second, behind this one,
    Low(u8),
    // or one of how often the next octet is to be taken.
    Times,
}

// Octets that are being read: how many there are, what comes next, and how often the next is to be taken.
#[derive(Clone, Copy)]
struct Parsed {
    count: usize,
    next: Next,
    times: usize,
}

// Puts the octets of an action into o, as far as they fit, and gives them.
pub(crate) fn octets<'a>(s: &[u8], o: &'a mut [u8]) -> &'a [u8] {
    let mut p = Parsed {
        count: 0,
        next: Next::High,
        times: 1,
    };
    for c in s {
        p = taken(p, *c, &mut *o);
    }
    first(o, p.count)
}

fn taken(p: Parsed, c: u8, o: &mut [u8]) -> Parsed {
    match (digit(c), p.next) {
        (None, _) if c == b'x' => Parsed {
            next: Next::Times,
            times: 0,
            ..p
        },
        (None, _) => Parsed {
            next: Next::High,
            ..p
        },
        (Some(v), Next::High) => Parsed {
            next: Next::Low(v),
            ..p
        },
        (Some(v), Next::Low(high)) => Parsed {
            count: put(high << 4 | v, p.times, o, p.count),
            next: Next::High,
            times: 1,
        },
        // Up to 999.
        (Some(v), Next::Times) => Parsed {
            times: p.times % 100 * 10 + usize::from(v),
            ..p
        },
    }
}

// What a digit counts; capitals only, so that no word is taken for octets.
fn digit(c: u8) -> Option<u8>
    ensures { IfSome result (λ d. d < 16) }
{
    match c {
        b'0'..=b'9' => Some(c - b'0'),
        b'A'..=b'F' => Some(c - b'A' + 10),
        _ => None,
    }
}

// Puts so many of an octet from a place on, as far as they fit, and gives the place behind them.
fn put(b: u8, times: usize, o: &mut [u8], at: usize) -> usize {
    let end = at.saturating_add(times).min(o.len());
    if let Some(part) = o.get_mut(at..end) {
        part.fill(b);
    }
    end
}
