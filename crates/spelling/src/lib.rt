//! How the words of plan files are spelled: lines, numbers, forms, regions, stored expressions.
#![tactic(auto)]

pub mod lines;
pub mod sizes;
pub mod terms;
pub mod words;
