//! Schedules: from a text to the directives of each function, and to the loops that they make of an algorithm's functions.
#![tactic(auto)]

pub mod bodies;
pub mod calls;
pub mod definitions;
pub mod ends;
pub mod error;
pub mod forms;
pub mod hosts;
pub mod keyword;
pub mod laws;
pub mod names;
pub mod nest;
pub mod numbers;
pub mod parser;
pub mod placing;
pub mod reader;
pub mod region_rule;
pub mod roots;
pub mod schedule;
pub mod scopes;
pub mod skeleton;
pub mod stop;
pub mod subject;
pub mod windows;
pub mod worked;

pub use bodies::bodies_of;
pub use error::{Refusal, Rule, SchedError, Stop};
pub use keyword::Keyword;
pub use nest::{Body, Nest, Skeleton, Turning, skeleton_over};
pub use numbers::{Extent, Numbers, has_short_shift, loop_numbers, piece_counts};
pub use placing::{Halt, Loop, Mark, Placed, Subject, first_fault, follow, has_root, place};
pub use region_rule::RegionRule;
pub use schedule::{Directive, Fold, Home, Sched, Scheduled, Split, Tail, Tile};
pub use skeleton::{Known, SkeletonError, Step};
pub use subject::{Placement, followed, has_home, has_names, placed};
