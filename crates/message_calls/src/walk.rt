// 01, "Messages": the fields of a message "left to right": one walk over the rows of its layout serves reading, the search and
// writing. It carries the row, so that no field's is looked for by the field's number.
ghost use Rattle.std.specs.Prelude.{◌≡◌};
ghost use Rattle.std.specs.Iterator.{YieldsFirst, item_count};
ghost use Rattle.message_calls.specs.Shape.{shape_rows};
ghost use Rattle.message_calls.specs.Walk.{fields_ahead, Walking};

use crate::layout;
use crate::shape::Shape;
use message::layout::Field;

#[derive(Clone, Copy)]
pub(crate) struct Walk {
    // the row of the next field, and how often the repeated rows still come, this time counted
    row: usize,
    rounds: usize,
    // the first of the repeated rows, the row after them, and the row after the last of all
    first: usize,
    after: usize,
    end: usize,
}

impl Walk {
    // From the first field on.
    pub(crate) fn over(shape: Shape) -> Walk
        ensures { Walking result × (fields_ahead result ≡ shape_rows shape) }
    {
        let y = shape.line;
        let first = y.from + y.head;
        let after = first + y.group;
        Walk {
            row: y.from,
            rounds: shape.k,
            first,
            after,
            end: after + y.tail,
        }
    }
}

impl Iterator for Walk {
    type Item = Field;

    ghost can_next = { Walking };

    ghost next_gives = { YieldsFirst fields_ahead };

    ghost remaining = { item_count fields_ahead };

    // On to the field after it: from the last of the repeated rows back to the first, while they come again.
    fn next(&mut self) -> Option<Field> {
        if self.end <= self.row {
            return None;
        }
        let field = layout::field_at(self.row);
        self.row += 1;
        if self.row == self.after && 1 < self.rounds {
            self.row = self.first;
            self.rounds -= 1;
        }
        Some(field)
    }
}
