//! Refusals as the program tells them.

ghost use Rattle.std.specs.Prelude.{◌≡◌};
ghost use Rattle.commands.specs.declared.pipeline.fault.Fault.TheVariants.{Memory as OutOfMemory};
ghost use Rattle.commands.specs.Pipeline.Faults.{crop_fault, image_fault, plain_fault, plan_fault, read_fault, run_fault, scene_fault, schedule_fault, text_fault};

use crate::pipeline::rule::BrokenRule;
use algo::{AlgoError, Code};
use audit::{CheckError, K};
use crew::RunError;
use crop::{CropError, SceneError};
use plain::PlainError;
use pnm::PnmError;
use sched::SchedError;
use spelling::lines::TextError;
use std::alloc::AllocError;
use thiserror::Error;
use tree::token::{Name, Span};

/// A refusal: its code and where it stands. It prints as the program tells it, behind its own name.
#[derive(Debug, Drop, Error)]
pub enum Fault {
    /// M0: memory ran out.
    #[error("M0")]
    Memory,
    /// A text is no algorithm: the code of what it breaks, and the bytes at which.
    #[error("{code} bytes {}..{}", .span.start, .span.end)]
    Algo { code: Code, span: Span },
    /// A text is no schedule: the code of what it breaks, and the bytes at which.
    #[error("{code} bytes {}..{}", .span.start, .span.end)]
    Schedule { code: Code, span: Span },
    /// A schedule breaks a rule: which one, and the name of the function.
    #[error("L{} {}", .rule.number(), .function.as_str())]
    Rule { rule: BrokenRule, function: Name },
    /// An algorithm has a name that no schedule's text could give. One that was read from a text has none.
    #[error("L1")]
    Names,
    /// A plan is refused: the code, and the line of its text at which.
    #[error("K{} line {line}", .code.number())]
    Plan { code: K, line: usize },
    /// N1: a line of a plan file is not as it is written for any plan, or the file ends before the line is whole.
    #[error("N1 line {line}")]
    Form { line: usize },
    /// N2: a line of a plan file passes a limit.
    #[error("N2 line {line}")]
    Limit { line: usize },
    /// O1: a text is no order of workers' steps.
    #[error("O1")]
    Order,
    /// A file is no image of the input's shape, or could not be read or written.
    #[error("{0}")]
    Image(PnmError),
    /// P1: a pixel takes more evaluations than the budget allows.
    #[error("P1")]
    Budget,
    /// U1: workers left a piece unfinished.
    #[error("U1 piece {piece}")]
    Unfinished { piece: u32 },
    /// C1: a tile is empty or leaves the output's extents.
    #[error("C1")]
    Outside,
    /// C2: the algorithm of a tile passes a limit of an algorithm's text: the name of what does.
    #[error("C2 {name}")]
    Uncut { name: String },
    /// The picture of a schedule is not the one that it is compared with.
    #[error("the pictures differ")]
    Difference,
}

impl From<AllocError> for Fault {
    ghost from_gives = { λ _ f. f ≡ OutOfMemory };

    fn from(_: AllocError) -> Fault {
        Fault::Memory
    }
}

impl From<AlgoError> for Fault {
    ghost from_gives = { λ e f. f ≡ text_fault e };

    fn from(e: AlgoError) -> Fault {
        match e {
            AlgoError::Memory => Fault::Memory,
            AlgoError::Refused { code, span } => Fault::Algo { code, span },
        }
    }
}

impl From<SceneError> for Fault {
    ghost from_gives = { λ e f. f ≡ scene_fault e };

    fn from(e: SceneError) -> Fault {
        match e {
            SceneError::Text(error) => Fault::from(error),
            SceneError::Reduction { name } => Fault::Uncut { name },
        }
    }
}

impl From<CropError> for Fault {
    ghost from_gives = { λ e f. f ≡ crop_fault e };

    fn from(e: CropError) -> Fault {
        match e {
            CropError::Memory => Fault::Memory,
            CropError::Outside => Fault::Outside,
            CropError::Limit { name } => Fault::Uncut { name },
        }
    }
}

impl From<SchedError> for Fault {
    ghost from_gives = { λ e f. f ≡ schedule_fault e };

    fn from(e: SchedError) -> Fault {
        match e {
            SchedError::Memory => Fault::Memory,
            SchedError::BadToken(span) => Fault::Schedule {
                code: Code::BadToken,
                span,
            },
            SchedError::BadForm(span) => Fault::Schedule {
                code: Code::BadForm,
                span,
            },
            SchedError::TooLarge(span) => Fault::Schedule {
                code: Code::TooLarge,
                span,
            },
            SchedError::Broken(rule, function) => Fault::Rule {
                rule: BrokenRule::Directive(rule),
                function,
            },
            SchedError::UnfitNames => Fault::Names,
        }
    }
}

impl From<TextError> for Fault {
    ghost from_gives = { λ e f. f ≡ read_fault e };

    fn from(e: TextError) -> Fault {
        match e {
            TextError::Memory => Fault::Memory,
            TextError::Form(line) => Fault::Form { line },
            TextError::Limit(line) => Fault::Limit { line },
        }
    }
}

impl From<CheckError> for Fault {
    ghost from_gives = { λ e f. f ≡ plan_fault e };

    fn from(e: CheckError) -> Fault {
        match e {
            CheckError::Memory => Fault::Memory,
            CheckError::Refused(code, line) => Fault::Plan {
                code,
                line: line as usize,
            },
        }
    }
}

impl From<PnmError> for Fault {
    ghost from_gives = { λ e f. f ≡ image_fault e };

    fn from(e: PnmError) -> Fault {
        match e {
            PnmError::Memory => Fault::Memory,
            _ => Fault::Image(e),
        }
    }
}

impl From<PlainError> for Fault {
    ghost from_gives = { λ e f. f ≡ plain_fault e };

    fn from(e: PlainError) -> Fault {
        match e {
            PlainError::Memory => Fault::Memory,
            PlainError::Budget => Fault::Budget,
        }
    }
}

impl From<RunError> for Fault {
    ghost from_gives = { λ e f. f ≡ run_fault e };

    fn from(e: RunError) -> Fault {
        match e {
            RunError::Memory => Fault::Memory,
            RunError::Unfinished(piece) => Fault::Unfinished { piece },
        }
    }
}
