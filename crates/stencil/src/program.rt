//! The program, but for its real files and streams.

ghost use Rattle.std.specs.Prelude.{◌≡◌, ◌≢◌, ◌⊎◌, [], map, IfErr, OnOk};
ghost use Rattle.commands.specs.Pipeline.Pictures.{IsDone, IsRefused};
ghost use Rattle.commands.specs.declared.pipeline.fault.Fault.{Fault};
ghost use Rattle.pnm.specs.declared.error.PnmError.{PnmError};
ghost use Rattle.commands.specs.Asked.{asked_by};
ghost use Rattle.commands.specs.Line.{stated};
ghost use Rattle.stencil.specs.Answer.{CommandAnswers, Ends, HasEnded, StreamsAnswer};

use crate::compare::compare_command;
use crate::explaining::{Detail, explain};
use crate::schedule_command::compile_command;
use commands::crop_command::crop_command;
use commands::draw_command::draw_command;
use commands::pipeline::{Fault, run_over};
use commands::plan_command::{Telling, plan_command};
use commands::tiles_command::tiles_command;
use commands::{
    Files, Request, answer, answer_words, explain_command, flush, format_command, picture_command,
    read_words, replay_command, stated_words,
};
use std::alloc::Global;
use std::io::{Read, Write};
use std::sync::Wait;
use std::thread::Threads;

// What runs where no words are given: each pixel of 2 columns and 10 rows is one more.
const INCREMENT: &str =
    "pipeline inc; input in u8 [2, 10]; func out u8 (x, y) = in[x, y] + 1u8; output out [2, 10];";

// Its plan of two pieces: the rows 0 to 2, and the rows 3 to 9.
const INCREMENT_PLAN: &str = "plan 1 inc
input in u8 [2,10]
output out u8 [2,10]
group 0 out [0:1;0:9] grid 2
alloc b0 out [0#2;0+3*s0#7]
for s1 0+3*s0:2+7*s0 serial
for s2 0:1 serial
store b0 0 x=0+1*s2 y=0+1*s1 (in[x,y]+1u8)
end
end
publish @0
cert
own 0 [0:1;0+3*s0:2+7*s0]
claim 0 10 b0 out 0 [0:1;0+3*s0:2+7*s0]
end
";

/// The increment of an image, by its plan of two pieces.
fn increment<T: Threads + Sync, R: Read, W: Write>(
    rt: &T,
    alloc: Global,
    input: &mut R,
    out: &mut W,
) -> Result<(), Fault>
    ensures done { OnOk result (IsDone INCREMENT.now INCREMENT_PLAN.now (R.remaining input.old) (R.remaining input.new) (W.contents out.old) (W.contents out.new)) }
    ensures refused { IfErr result (λ fault. IsRefused INCREMENT.now INCREMENT_PLAN.now (R.remaining input.old) (R.remaining input.new) (W.contents out.old) (W.contents out.new) fault
        ⊎ ((fault ≡ Fault.Image PnmError.Device) × IsDone INCREMENT.now INCREMENT_PLAN.now (R.remaining input.old) (R.remaining input.new) (W.contents out.old) (W.contents out.new))) }
{
    run_over(rt, alloc, INCREMENT, INCREMENT_PLAN, input, out)?;
    flush(out)
}

/// Does what is asked for.
fn command<T: Threads + Wait + Sync, F: Files, W: Write, E: Write>(
    rt: &T,
    alloc: Global,
    files: &mut F,
    out: &mut W,
    err: &mut E,
    request: &Request<'_>,
) -> Result<(), Fault>
    ensures { Ends (F.contents files.old) (F.contents files.new) (asked_by request.now) result }
{
    match request {
        Request::Picture(asked) => picture_command(rt, alloc, files, asked),
        Request::Format(asked) => format_command(alloc, files, asked),
        Request::Explain(asked) => explain_command(out, asked),
        Request::Compile(asked) => compile_command(rt, alloc, files, asked),
        Request::Check(asked) => plan_command(rt, alloc, files, out, asked, Telling::Counts),
        Request::Cost(asked) => plan_command(rt, alloc, files, out, asked, Telling::Costs),
        Request::Show(asked) => plan_command(rt, alloc, files, out, asked, Telling::Nests),
        Request::Draw(asked) => draw_command(rt, alloc, files, asked),
        Request::Replay(asked) => replay_command(rt, alloc, files, out, asked),
        Request::Compare(asked) => compare_command(rt, alloc, files, out, asked),
        Request::Crop(asked) => crop_command(alloc, files, out, err, asked),
        Request::Tiles(asked) => tiles_command(alloc, files, out, asked),
    }
}

/// Does what is asked for, tells what came of it, and answers the status.
fn carry_out<T: Threads + Wait + Sync, F: Files, W: Write, E: Write>(
    rt: &T,
    alloc: Global,
    files: &mut F,
    out: &mut W,
    err: &mut E,
    request: &Request<'_>,
    detail: Detail,
) -> u8
    ensures { HasEnded (F.contents files.old) (F.contents files.new) (asked_by request.now) result }
{
    let outcome = command(rt, alloc, files, out, err, request);
    let status = answer(&outcome, err);
    explain(rt, alloc, files, request, &outcome, detail, err);
    status
}

/// How much is told where so many words ask for more.
fn detail_for(asking: usize) -> Detail {
    if asking == 0 {
        Detail::Line
    } else {
        Detail::Explained
    }
}

/// Runs the program on such words.
fn tool_on<T: Threads + Wait + Sync, F: Files, W: Write, E: Write>(
    rt: &T,
    alloc: Global,
    words: &[&str],
    detail: Detail,
    files: &mut F,
    out: &mut W,
    err: &mut E,
) -> u8
    ensures { CommandAnswers (map (λ word. word.now) words.now) (F.contents files.old) (F.contents files.new) result }
{
    match read_words(alloc, words) {
        Ok(request) => carry_out(rt, alloc, files, out, err, &request, detail),
        Err(error) => answer_words(&error, out, err),
    }
}

/// Runs the program on the words after its name, and answers its exit status. A word `--explain`, wherever it stands before a
/// word `--`, asks for more of a refusal than its line, and changes nothing else. Pieces and pixels are computed in the caller's
/// thread and in threads that are started through `rt`; where none can be started the caller computes all.
pub fn tool<T: Threads + Wait + Sync, F: Files, R: Read, W: Write, E: Write>(
    rt: &T,
    alloc: Global,
    words: &[&str],
    files: &mut F,
    input: &mut R,
    out: &mut W,
    err: &mut E,
) -> u8
    // Without words: the increment of the image on the input, by its plan of two pieces.
    ensures streams { words.now ≡ [] → StreamsAnswer INCREMENT.now INCREMENT_PLAN.now (R.remaining input.old) (R.remaining input.new) (W.contents out.old) (W.contents out.new) result }
    ensures kept { words.now ≡ [] → files.new ≡ files.old }
    ensures unread { words.now ≢ [] → input.new ≡ input.old }
    ensures command { words.now ≢ [] → CommandAnswers (stated (map (λ word. word.now) words.now)) (F.contents files.old) (F.contents files.new) result }
{
    if words.is_empty() {
        return answer(&increment(rt, alloc, input, out), err);
    }
    match stated_words(alloc, words) {
        Ok(stated) => {
            let detail = detail_for(words.len().saturating_sub(stated.len()));
            tool_on(rt, alloc, stated.as_slice(), detail, files, out, err)
        }
        Err(_) => answer(&Err(Fault::Memory), err),
    }
}
