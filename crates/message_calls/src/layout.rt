// 01, "Messages": the layouts: their rows, their sizes and the ranges of their fields. What stands in a table is picked by a
// `match`: a constant table would be built on the stack wherever it is read.
ghost use Rattle.std.specs.Prelude.{◌≡◌, ◌+◌, ◌≤◌, length, get_or};
ghost use Rattle.message.specs.Fields.{two_of, width_of, passes, no_field};
ghost use Rattle.message.specs.Layouts.{number_of};
ghost use Rattle.message.specs.Values.{size_of, numbered, out_at};
ghost use Rattle.message.specs.Table.{table, table_len, cut};
ghost use Rattle.message_calls.specs.Shape.{LineOf, NumberOut, shape_rows};

use crate::shape::Shape;
use crate::walk::Walk;
use message::layout::{Field, LayoutLine};
use message::{FIELDS_MOST, layout, lines};

// The layout of a code, where the code is listed.
pub(crate) fn find(code: u16) -> Option<LayoutLine>
    ensures { LineOf (number_of code) result }
{
    match code {
        message::CARRIED_OUT => Some(lines::CARRIED_OUT),
        message::REFUSED => Some(lines::REFUSED),
        message::SET_TIMES => Some(lines::SET_TIMES),
        message::REPORT_TIMES => Some(lines::REPORT_TIMES),
        message::SET_PLAN => Some(lines::SET_PLAN),
        message::REPORT_PLAN => Some(lines::REPORT_PLAN),
        message::REPORT_RUNNING => Some(lines::REPORT_RUNNING),
        message::RUN => Some(lines::RUN),
        message::QUERY_TIMES => Some(lines::QUERY_TIMES),
        message::QUERY_PLAN => Some(lines::QUERY_PLAN),
        message::QUERY_RUNNING => Some(lines::QUERY_RUNNING),
        _ => None,
    }
}

// The field in a row of the table, from 0. A column of numbers below is a layout: the times of 5F 14 from 3 on and of 5F C4
// from 11 on, whose plan is that of 5F 18, 5F 44 and 5F 45 too; the plan of 5F 15 from 19 on, of 5F C5 and 5F C8 from 26 on,
// and of a record from 33 on.
pub(crate) fn field_at(row: usize) -> Field
    ensures { result ≡ get_or table row no_field }
{
    match row {
        0 => layout::CODE,
        1 => layout::ERROR_NUMBER,
        2 => layout::PARAMETER_NUMBER,
        3 => layout::PLAN_SET,
        11 => layout::PLAN,
        4 | 12 => layout::COUNT,
        5 | 13 => layout::MINIMUM,
        6 | 14 => layout::MAXIMUM,
        7 | 15 => layout::YELLOW,
        8 | 16 => layout::ALL_RED,
        9 | 17 => layout::WALK_FLASH,
        10 | 18 => layout::RED_MAN,
        19 => layout::PLAN_SET,
        26 => layout::PLAN,
        20 | 27 | 33 => layout::DIRECT,
        21 | 28 | 34 => layout::ORDER,
        22 | 29 => layout::COUNT,
        23 | 30 | 35 => layout::GREEN,
        24 | 31 | 36 => layout::CYCLE,
        25 | 32 | 37 => layout::OFFSET,
        _ => layout::NO_FIELD,
    }
}

pub(crate) fn two(f: Field) -> bool
    ensures { result ≡ two_of f }
{
    matches!(f, Field::Two(_, _))
}

pub(crate) fn width(two: bool) -> usize
    ensures { result ≡ width_of two }
{
    if two { 2 } else { 1 }
}

// How many octets the fields in so many rows of the table have, from one on.
pub(crate) fn size_in(from: usize, len: usize) -> usize
    requires { from + len ≤ table_len }
    ensures { result ≡ size_of (cut from len) }
{
    let mut size: usize = 0;
    for row in from..from + len {
        size += width(two(field_at(row)));
    }
    size
}

// Is the value in its field's range?
pub fn passes(f: Field, v: u16) -> bool
    ensures { result ≡ passes f v }
{
    match f {
        Field::Octet(least, greatest) => least <= v && v <= greatest,
        Field::Two(least, greatest) => least <= v && v <= greatest,
        Field::Order => {
            if 255 < v {
                return false;
            }
            1 <= diagram_calls::phases(v as u8)
        }
    }
}

// "The search over fields stops at the first that fails and yields its number".
pub(crate) fn first_out(shape: Shape, values: &[u16; FIELDS_MOST]) -> Option<usize>
    ensures { NumberOut (out_at (shape_rows shape) values.now) (length (shape_rows shape)) result }
{
    let mut walk = Walk::over(shape);
    let mut number: usize = 0;
    loop {
        let Some(field) = walk.next() else {
            break None;
        };
        let value = values[number];
        number += 1;
        if !passes(field, value) {
            break Some(number);
        }
    }
}

// The count k among the values; 0 where the layout has none.
pub(crate) fn count(line: LayoutLine, values: &[u16]) -> usize
    ensures { result ≡ numbered values.now line.count }
{
    if line.count == 0 {
        return 0;
    }
    values.get(line.count - 1).map_or(0, |k| usize::from(*k))
}
