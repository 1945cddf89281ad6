// 01, "Messages": every code of its table, and the layouts. There is nothing to run: what reading and writing give is defined in
// specs/, and what 01 asks of them is proved in proofs/. The functions that are proved to do so are the crate `message_calls`.

#![tactic(auto)]

pub mod layout;
pub mod lines;

use octets::refusal::Refusal;

// The codes of 01's table, high octet first.
pub const CARRIED_OUT: u16 = 0x0F80;

pub const REFUSED: u16 = 0x0F81;

pub const SET_TIMES: u16 = 0x5F14;

pub const REPORT_TIMES: u16 = 0x5FC4;

pub const SET_PLAN: u16 = 0x5F15;

pub const REPORT_PLAN: u16 = 0x5FC5;

pub const REPORT_RUNNING: u16 = 0x5FC8;

pub const RUN: u16 = 0x5F18;

pub const QUERY_TIMES: u16 = 0x5F44;

pub const QUERY_PLAN: u16 = 0x5F45;

pub const QUERY_RUNNING: u16 = 0x5F48;

// "Fields are numbered from 1 after the code": the plan of each message that names one, and of a 5F 15 direct and the count.
pub const PLAN: u8 = 1;

pub const DIRECT: u8 = 2;

pub const PLAN_COUNT: u8 = 4;

// The place of the plan among the values.
pub const PLAN_AT: usize = PLAN as usize - 1;

// The most fields that a message has: 5F 14 and 5F C4 with eight phases.
pub const FIELDS_MOST: usize = 50;

// The code, how many fields, and their values, left to right; a place past the last holds 0.
#[derive(Clone, Copy)]
pub struct Message {
    pub code: u16,
    pub fields: usize,
    pub values: [u16; FIELDS_MOST],
}

// Why a message is refused: the refusal, and the number of the field that it names, 0 where it names none.
#[derive(Clone, Copy, Debug, PartialEq, Eq)]
pub struct Fault {
    pub refusal: Refusal,
    pub field: u8,
}
