// 01, "Messages": the table of layouts, line by line.
use crate::layout::{K_FEWEST, K_MOST, LayoutLine};

// A code that is not listed.
pub const NO_LAYOUT: LayoutLine = LayoutLine {
    code: 0,
    from: 0,
    head: 0,
    group: 0,
    tail: 0,
    count: 0,
    fewest: 0,
    most: 0,
};

pub const CARRIED_OUT: LayoutLine = LayoutLine {
    code: crate::CARRIED_OUT,
    head: 1,
    ..NO_LAYOUT
};

pub const REFUSED: LayoutLine = LayoutLine {
    code: crate::REFUSED,
    head: 3,
    ..NO_LAYOUT
};

pub const SET_TIMES: LayoutLine = LayoutLine {
    code: crate::SET_TIMES,
    from: 3,
    head: 2,
    group: 6,
    count: 2,
    fewest: K_FEWEST,
    most: K_MOST,
    ..NO_LAYOUT
};

pub const REPORT_TIMES: LayoutLine = LayoutLine {
    code: crate::REPORT_TIMES,
    from: 11,
    ..SET_TIMES
};

pub const SET_PLAN: LayoutLine = LayoutLine {
    code: crate::SET_PLAN,
    from: 19,
    head: 4,
    group: 1,
    tail: 2,
    count: 4,
    fewest: K_FEWEST,
    most: K_MOST,
    ..NO_LAYOUT
};

pub const REPORT_PLAN: LayoutLine = LayoutLine {
    code: crate::REPORT_PLAN,
    from: 26,
    ..SET_PLAN
};

pub const REPORT_RUNNING: LayoutLine = LayoutLine {
    code: crate::REPORT_RUNNING,
    ..REPORT_PLAN
};

pub const RUN: LayoutLine = LayoutLine {
    code: crate::RUN,
    from: 11,
    head: 1,
    ..NO_LAYOUT
};

pub const QUERY_TIMES: LayoutLine = LayoutLine {
    code: crate::QUERY_TIMES,
    from: 11,
    head: 1,
    ..NO_LAYOUT
};

pub const QUERY_PLAN: LayoutLine = LayoutLine {
    code: crate::QUERY_PLAN,
    ..QUERY_TIMES
};

pub const QUERY_RUNNING: LayoutLine = LayoutLine {
    code: crate::QUERY_RUNNING,
    ..NO_LAYOUT
};
