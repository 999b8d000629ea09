//! What a yes of the checker of plans of several groups means, and why it implies that every order of steps is right.

pub mod laws;
