// 01, "Messages": the fields and their ranges, and how the code keeps a layout: its rows stand together in one table of fields.

// "Fields are one octet unless marked": the least and the greatest value of a field of one octet, and of one of two. A
// phase order is one octet too; its range is the directory.
#[derive(Clone, Copy)]
pub enum Field {
    Octet(u16, u16),
    Two(u16, u16),
    Order,
}

// "k is 1 to 8"
pub const K_FEWEST: usize = 1;

pub const K_MOST: usize = 8;

pub const CODE: Field = Field::Two(0, 65_535);

pub const ERROR_NUMBER: Field = Field::Octet(0, 255);

pub const PARAMETER_NUMBER: Field = Field::Octet(0, 255);

pub const PLAN_SET: Field = Field::Octet(1, 48);

pub const PLAN: Field = Field::Octet(0, 48);

pub const COUNT: Field = Field::Octet(K_FEWEST as u16, K_MOST as u16);

pub const MINIMUM: Field = Field::Octet(5, 254);

pub const MAXIMUM: Field = Field::Two(5, 900);

pub const YELLOW: Field = Field::Octet(3, 9);

pub const ALL_RED: Field = Field::Octet(1, 9);

pub const WALK_FLASH: Field = Field::Octet(0, 90);

pub const RED_MAN: Field = Field::Octet(0, 9);

pub const DIRECT: Field = Field::Octet(0, 7);

pub const ORDER: Field = Field::Order;

pub const GREEN: Field = Field::Two(1, 900);

pub const CYCLE: Field = Field::Two(1, 900);

pub const OFFSET: Field = Field::Two(0, 899);

// Past the last field nothing but 0 has a place.
pub const NO_FIELD: Field = Field::Octet(0, 0);

// A layout, as the code keeps it.
#[derive(Clone, Copy)]
pub struct LayoutLine {
    // its code, 0 where it has none
    pub code: u16,
    // its first row in the table of fields
    pub from: usize,
    // how many rows stand before those that come k times, how many those are, and how many stand after them
    pub head: usize,
    pub group: usize,
    pub tail: usize,
    // the number of the field that is the count k, 0 where no field is
    pub count: usize,
    // the least k and the greatest
    pub fewest: usize,
    pub most: usize,
}
