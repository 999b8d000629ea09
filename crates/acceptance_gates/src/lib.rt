//! What no command of the program shows: what a gate hears of a crew's pieces, workers that wait at a gate, single pieces by seats of
//! the caller, calls that no command makes, and every kernel of `lanes`, run as tests. The crate holds tests alone.
#![tactic(auto)]

#[cfg(test)]
mod calls_tests;
#[cfg(test)]
mod cells_tests;
#[cfg(test)]
mod chain_tests;
#[cfg(test)]
mod conversions;
#[cfg(test)]
mod example_tests;
#[cfg(test)]
mod gate_tests;
#[cfg(test)]
mod kernel_tests;
#[cfg(test)]
mod kernels;
#[cfg(test)]
mod seat_tests;
#[cfg(test)]
mod thread_tests;
#[cfg(test)]
mod watching_tests;
#[cfg(test)]
mod worker;
