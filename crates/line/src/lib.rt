// 01, "Cases": the listing program "reads lines: `T` is a second, `B`, tab, two hex digits an octet". One octet a call, by
// value: no line is held, so none is too long to be told bad.

#![tactic(auto)]

ghost use Rattle.std.specs.Prelude.{◌≡◌};
ghost use Rattle.line.specs.Line.{hex_of, high_digit, low_digit, seen_of, whole_of, first_line, line_octet, end_of};

// What ends a line, and what parts its fields.
const LINE_FEED: u8 = b'\n';

const TAB: u8 = b'\t';

// What has been seen of the line under way.
#[derive(Clone, Copy)]
pub enum Seen {
    Nothing,
    Second,
    Begun,
    Tab,
    High(u8),
    Octet(u8),
    Bad,
}

// The line under way, and "its number from 1".
#[derive(Clone, Copy)]
pub struct Line {
    pub seen: Seen,
    pub number: u64,
}

// What a line is. A bad one has its number.
#[derive(Clone, Copy)]
pub enum LineFound {
    Second,
    Octet(u8),
    Bad(u64),
}

// The line under way after an octet, and the line that the octet ended, if it did.
#[derive(Clone, Copy)]
pub struct LineTaken {
    pub line: Line,
    pub found: Option<LineFound>,
}

// The first line, of which nothing has been seen.
pub fn line_start() -> Line
    ensures { result ≡ first_line }
{
    Line {
        seen: Seen::Nothing,
        number: 1,
    }
}

// One octet of the input.
#[tactic(auto, unfolding(crate::specs::Line::line_octet))]
pub fn line_octet(l: Line, o: u8) -> LineTaken
    ensures { result ≡ line_octet l o }
{
    if o == LINE_FEED {
        return LineTaken {
            line: Line {
                seen: Seen::Nothing,
                number: l.number.wrapping_add(1),
            },
            found: Some(whole(l.seen, l.number)),
        };
    }
    LineTaken {
        line: Line {
            seen: seen_with(l.seen, o),
            ..l
        },
        found: None,
    }
}

// The end of the input: what the last line is where it lacks its line feed.
#[tactic(auto, unfolding(crate::specs::Line::end_of))]
pub fn line_end(l: Line) -> Option<LineFound>
    ensures { result ≡ end_of l }
{
    match l.seen {
        Seen::Nothing => None,
        s => Some(whole(s, l.number)),
    }
}

// What a whole line is, n being its number.
fn whole(s: Seen, n: u64) -> LineFound
    ensures { result ≡ whole_of s n }
{
    match s {
        Seen::Second => LineFound::Second,
        Seen::Octet(b) => LineFound::Octet(b),
        _ => LineFound::Bad(n),
    }
}

// What has been seen with one octet more, which is no line feed.
fn seen_with(s: Seen, o: u8) -> Seen
    ensures { result ≡ seen_of s o }
{
    match (s, o) {
        (Seen::Nothing, b'T') => Seen::Second,
        (Seen::Nothing, b'B') => Seen::Begun,
        (Seen::Begun, TAB) => Seen::Tab,
        (Seen::Tab, _) => high(o),
        (Seen::High(h), _) => low(h, o),
        _ => Seen::Bad,
    }
}

fn high(o: u8) -> Seen
    ensures { result ≡ high_digit o }
{
    hex(o).map_or(Seen::Bad, |d| Seen::High(d))
}

fn low(h: u8, o: u8) -> Seen
    ensures { result ≡ low_digit h o }
{
    hex(o).map_or(Seen::Bad, |d| Seen::Octet(h % 16 * 16 + d % 16))
}

// "Hex .. is read in either case."
#[tactic(auto, unfolding(crate::specs::Line::hex_of))]
fn hex(o: u8) -> Option<u8>
    ensures { result ≡ hex_of o }
{
    match o {
        b'0'..=b'9' => Some(o - b'0'),
        b'A'..=b'F' => Some(o - b'A' + 10),
        b'a'..=b'f' => Some(o - b'a' + 10),
        _ => None,
    }
}
