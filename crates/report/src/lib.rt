//! What a checked plan costs: the stores, private cells, fetched cells and pieces of each stored function.
#![tactic(auto)]

pub mod codes;
mod costs;
mod counting;
pub mod drawing;
mod known;
mod memory;
pub mod nests;
mod ranges;
mod subject;
mod table;
mod weighing;
mod within;

pub use costs::{Costs, FunctionCost, cost};
pub use table::text;
pub use within::stores_within;
