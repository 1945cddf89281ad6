// 01, "Messages": a layout with its count k, which fixes its fields.
ghost use Rattle.std.specs.Prelude.{◌≡◌, ◌+◌, ◌*◌, ◌≤◌};
ghost use Rattle.message.specs.Fields.{k_most};
ghost use Rattle.message.specs.Values.{fields_most};
ghost use Rattle.message.specs.Table.{table_len};

use crate::layout;
use message::layout::LayoutLine;

#[derive(Clone, Copy)]
pub(crate) struct Shape {
    pub(crate) line: LayoutLine,
    pub(crate) k: usize,
    ghost inside: { line.from + line.head + line.group + line.tail ≤ table_len },
    ghost most: { line.head + k * line.group + line.tail ≤ fields_most },
    // Rows come k times just where k may be more than 0.
    ghost group_where_k: { k ≤ k_most * line.group },
    ghost k_where_group: { line.group ≤ fields_most * k },
}

impl Shape {
    ghost use Rattle.std.specs.Prelude.{length};
    ghost use Rattle.message.specs.Values.{size_of};
    ghost use Rattle.message_calls.specs.Shape.{IsListed, ShapeOf, shape_rows};

    // The layout for k, where it may have this k.
    pub(crate) fn of(line: LayoutLine, k: usize) -> Option<Shape>
        requires { IsListed line }
        ensures { ShapeOf line k result }
    {
        if k < line.fewest || line.most < k {
            return None;
        }
        Some(Shape { line, k })
    }

    // How many fields it has.
    pub(crate) fn fields(self) -> usize
        ensures { (result ≡ length (shape_rows self)) × (result ≤ fields_most) }
    {
        self.line.head + self.k * self.line.group + self.line.tail
    }

    // How many octets its fields have.
    pub(crate) fn size(self) -> usize
        ensures { (result ≡ size_of (shape_rows self)) × (result ≤ 2 * fields_most) }
    {
        let head = layout::size_in(self.line.from, self.line.head);
        let first = self.line.from + self.line.head;
        let group = layout::size_in(first, self.line.group);
        head + self.k * group + layout::size_in(first + self.line.group, self.line.tail)
    }
}
