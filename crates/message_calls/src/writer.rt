// 01, "Messages": the writer, straight into the output from `at` on.
ghost use Rattle.std.specs.Prelude.{◌≡◌, ◌+◌, ◌≤◌, eqb, length};
ghost use Rattle.std.specs.List.{list_all};
ghost use Rattle.octets.specs.Put.{Put, Stored};
ghost use Rattle.octets.specs.Writing.{WriterLeaves, written_as, written_of};
ghost use Rattle.message.specs.Fields.{field_octets};
ghost use Rattle.message.specs.Values.{size_of, octets_of};
ghost use Rattle.message.specs.Writer.{info_as, write_message};
ghost use Rattle.message_calls.specs.Shape.{shape_rows, WritableAs};

use crate::layout;
use crate::shape::Shape;
use crate::walk::Walk;
use message::{FIELDS_MOST, Message};
use octets::refusal::Refusal;

// The message as INFO. A field out of its range, one too few or too many, or a code that is not listed is refused before
// the output is looked at.
pub fn write(m: Message, out: &mut [u8], at: usize) -> Result<usize, Refusal>
    ensures { WriterLeaves (write_message m at out.old) (written_of result) out.new }
{
    let Some(shape) = writable(&m) else {
        return Err(Refusal::FieldWrong);
    };
    put_message(m.code, shape, &m.values, out, at)
}

// The layout of the message, if the message has as many fields, each in its range, and 0 past the last.
fn writable(m: &Message) -> Option<Shape>
    ensures { WritableAs m.now result }
{
    let line = layout::find(m.code)?;
    let shape = Shape::of(line, layout::count(line, &m.values))?;
    if m.fields != shape.fields() {
        return None;
    }
    if layout::first_out(shape, &m.values).is_some() {
        return None;
    }
    if !clear(&m.values[m.fields..]) {
        return None;
    }
    Some(shape)
}

fn clear(values: &[u16]) -> bool
    ensures { result ≡ list_all (λ v. eqb v 0) values.now }
{
    values.iter().all(|value| *value == 0)
}

// The code and the fields, where there is room for all of them.
fn put_message(
    code: u16,
    shape: Shape,
    values: &[u16; FIELDS_MOST],
    out: &mut [u8],
    at: usize,
) -> Result<usize, Refusal>
    ensures { WriterLeaves (written_as (info_as code (shape_rows shape) values.now) at out.old) (written_of result) out.new }
{
    let n = octets::CODE_LEN + shape.size();
    if !octets::room(out.len(), at, n) {
        return Err(Refusal::OutputShort);
    }
    let p = put_field(code, true, &mut *out, at);
    put_fields(shape, values, &mut *out, p);
    Ok(n)
}

// The fields' octets, left to right.
fn put_fields(shape: Shape, values: &[u16; FIELDS_MOST], out: &mut [u8], at: usize) -> usize
    requires { at + size_of (shape_rows shape) ≤ length out.old }
    ensures { Stored (octets_of (shape_rows shape) values.now) at out.old result out.new }
{
    let mut p = at;
    for (field, value) in Walk::over(shape).zip(values) {
        p = put_field(*value, layout::two(field), &mut *out, p);
    }
    p
}

fn put_field(v: u16, two: bool, out: &mut [u8], at: usize) -> usize
    ensures { Put (field_octets two v) at out.old result out.new }
{
    if two {
        return octets::put(&[octets::high(v), octets::low(v)], out, at);
    }
    octets::put(&[octets::low(v)], out, at)
}
