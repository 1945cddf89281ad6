// 01, "Plan book": what is stored and what is read.

#![tactic(auto)]

pub mod book;
pub mod setting;
