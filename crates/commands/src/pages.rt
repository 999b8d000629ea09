//! What the code of a refusal means, told behind its line.

use crate::pipeline::Fault;
use report::codes::page;
use std::alloc::Global;
use std::io::Write;

/// Tells of a code what it means and what mends it: the first and the last paragraph of its page.
fn tell<E: Write>(page: &str, err: &mut E) {
    let Some((meaning, rest)) = page.split_once("\n\n") else {
        let _ = write!(err, "{page}");
        return;
    };
    let mend = match rest.rsplit_once("\n\n") {
        Some((_, last)) => last,
        None => rest,
    };
    let _ = writeln!(err, "{meaning}");
    let _ = write!(err, "{mend}");
}

/// The code with which the line of a refusal begins.
fn code_in(line: &str) -> &str {
    if let Some((code, _)) = line.split_once(' ') {
        return code;
    }
    line
}

/// Tells what the code of a refusal means, and what usually mends it.
pub fn tell_code<E: Write>(alloc: Global, fault: &Fault, err: &mut E) {
    let mut line = String::new(alloc);
    let _ = write!(line, "{fault}");
    if let Some(page) = page(code_in(line.as_str())) {
        tell(page, err);
    }
}
