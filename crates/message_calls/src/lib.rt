// 01, "Messages": every code of its table, read and written by one reader and one writer over layouts.

#![tactic(auto)]

pub mod info;
pub mod layout;
pub mod reader;
mod shape;
mod walk;
pub mod writer;
