//! Which points the turns of split loops visit, how often, and in which order.
#![tactic(auto)]

mod apart;
mod choosing;
pub mod descent;
mod domains;
mod forms;
mod guarded;
mod guards;
pub mod laws;
pub mod maps;
mod moves;
mod naming;
pub mod nests;
mod order;
mod pending;
mod reduction;
mod regions;
pub mod shown;
mod sides;
pub mod spans;
pub mod stored;
mod turns;
mod updates;
pub mod windows;
pub mod worked;
