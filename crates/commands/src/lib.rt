//! What the commands of `stencil` do that need no schedule, over files and streams that the caller hands in, what words ask for, and
//! the files and streams of the system.
#![tactic(auto)]

pub mod asked_files;
pub mod comparing;
pub mod crop_command;
mod device;
pub mod draw_command;
mod exit;
mod file;
mod heap;
mod help;
pub mod laws;
mod limit;
pub mod marking;
pub mod order;
mod pages;
mod picture;
pub mod pipeline;
pub mod plan_command;
mod replay;
mod request;
mod reserved;
mod stream;
pub mod system;
mod text_command;
pub mod tiles_command;
mod words;
mod workers;

/// What hears of the pieces of a picture, as `Files` hands it out, and one that hears nothing.
pub use crew::{Gate, Unwatched};
pub use device::{FileError, Files, put_file};
pub use exit::{answer, answer_words, status};
pub use pages::tell_code;
pub use picture::{algorithm_file, algorithm_in, image_file, picture_command};
/// What `status` tells the exit status of.
pub use crate::pipeline::Fault;
pub use replay::replay_command;
pub use request::{
    CheckRequest, CompareRequest, CompileRequest, CropRequest, DrawRequest, ExplainRequest,
    FormatRequest, PictureRequest, ReplayRequest, Request, TilesRequest, Way,
};
pub use stream::flush;
pub use text_command::{explain_command, format_command};
pub use words::{read_words, stated_words};
