// 01, "Messages": "The fields of a message are read left to right", each by a reader of INFO.
ghost use Rattle.std.specs.Prelude.{◌≡◌, ℕ};
ghost use Rattle.message.specs.Values.{values_of, placed};
ghost use Rattle.message.specs.Reader.{reading_of, k_in, ranged_of, read_of};
ghost use Rattle.message.specs.Table.{kept_by, Kept};
ghost use Rattle.message_calls.specs.Shape.{IsListed, shape_rows};

use crate::shape::Shape;
use crate::walk::Walk;
use crate::{info, layout};
use message::layout::LayoutLine;
use message::{FIELDS_MOST, Fault, Message};
use octets::refusal::Refusal;

const NOT_HANDLED: Fault = Fault {
    refusal: Refusal::CodeNotHandled,
    field: 0,
};

const LENGTH_WRONG: Fault = Fault {
    refusal: Refusal::InfoLengthWrong,
    field: 0,
};

// The message that stands in INFO; "it refuses with 10, 11 (so for under two octets) or 12 and then gives no message."
pub fn read(info: &[u8]) -> Result<Message, Fault>
    ensures { reading_of result ≡ read_of info.now }
{
    if info.len() < octets::CODE_LEN {
        return Err(LENGTH_WRONG);
    }
    let Some(line) = layout::find(info::value_at(info, 0, true)) else {
        return Err(NOT_HANDLED);
    };
    let body = octets::body(info);
    let Some(shape) = Shape::of(line, count_in(line, body)) else {
        return Err(LENGTH_WRONG);
    };
    if body.len() != shape.size() {
        return Err(LENGTH_WRONG);
    }
    ranged(shape, body)
}

// A part of the right length: its first field out of range is refused.
fn ranged(shape: Shape, part: &[u8]) -> Result<Message, Fault>
    ensures { (l : ℕ) → Kept l shape.line → reading_of result ≡ ranged_of l shape.k part.now }
{
    let values = values(shape, part);
    if let Some(number) = layout::first_out(shape, &values) {
        return Err(Fault {
            refusal: Refusal::OutOfRange,
            field: number as u8,
        });
    }
    Ok(Message {
        code: shape.line.code,
        fields: shape.fields(),
        values,
    })
}

// The count k: the octets before it are a field each.
fn count_in(line: LayoutLine, body: &[u8]) -> usize
    requires { IsListed line }
    ensures { result ≡ k_in (kept_by line) body.now }
{
    if line.count == 0 {
        return 0;
    }
    usize::from(info::value_at(body, line.count - 1, false))
}

// The values of the fields, left to right.
fn values(shape: Shape, body: &[u8]) -> [u16; FIELDS_MOST]
    ensures { result ≡ placed (values_of (shape_rows shape) body.now) }
{
    let mut values = [0u16; FIELDS_MOST];
    let mut at: usize = 0;
    for (i, field) in Walk::over(shape).enumerate() {
        let two = layout::two(field);
        values[i] = info::value_at(body, at, two);
        at += layout::width(two);
    }
    values
}
