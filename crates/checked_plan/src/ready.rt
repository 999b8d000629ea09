//! What the crates that run a checked plan rest on, whatever form the plan has: definitions alone.
