//! The line that tells how far a picture has come.

use crew::Gate;
use std::io::{IsTerminal, Write};
use std::sync::atomic::{AtomicBool, AtomicU64, AtomicUsize, Ordering};
use std::time::Instant;

// The line is written at most once in so many milliseconds.
const TURN: u128 = 250;

// The first turn in which it is written: what takes less than two seconds shows no line.
const FIRST_TURN: u64 = 8;

/// How many pieces of a picture are finished: a line on the terminal, where standard error is one, once the picture takes longer
/// than two seconds. It is written at most four times a second, when a piece is finished, and erased with the last one. It takes no
/// memory.
#[derive(Drop)]
pub struct Progress<'a> {
    rt: &'a HostRuntime,
    pieces: usize,
    /// When the picture was begun, where there is a terminal.
    begun: Option<Instant>,
    finished: AtomicUsize,
    /// The turn in which the line was written last.
    told: AtomicU64,
    /// Whether a thread is writing the line.
    is_held: AtomicBool,
}

impl<'a> Progress<'a> {
    /// No piece of so many is finished.
    pub(crate) fn new(rt: &'a HostRuntime, pieces: usize) -> Progress<'a> {
        let begun = if rt.stderr().is_terminal() {
            Instant::now(rt).ok()
        } else {
            None
        };
        Progress {
            rt,
            pieces,
            begun,
            finished: AtomicUsize::new(0),
            told: AtomicU64::new(0),
            is_held: AtomicBool::new(false),
        }
    }

    /// Whether the line is to be written now. In each turn one thread is told so, once.
    fn is_due(&self, begun: &Instant) -> bool {
        let Ok(elapsed) = begun.elapsed(self.rt) else {
            return false;
        };
        let turn = u64::try_from(elapsed.as_millis() / TURN).unwrap_or(u64::MAX);
        let last = self.told.load(Ordering::SeqCst);
        turn >= FIRST_TURN
            && turn > last
            && self
                .told
                .compare_exchange(last, turn, Ordering::SeqCst, Ordering::SeqCst)
                .is_ok()
    }

    /// Writes the line in place of the one that stands there.
    fn write(&self, finished: usize) {
        let _ = write!(
            self.rt.stderr(),
            "\r{finished} of {} pieces\x1b[K",
            self.pieces
        );
    }

    /// Writes how many pieces are finished by now, where no other thread is writing the line: so no count is smaller than one
    /// before it.
    fn tell(&self) {
        let is_free = self
            .is_held
            .compare_exchange(false, true, Ordering::SeqCst, Ordering::SeqCst)
            .is_ok();
        if is_free {
            let finished = self.finished.load(Ordering::SeqCst);
            if finished < self.pieces {
                self.write(finished);
            }
            self.is_held.store(false, Ordering::SeqCst);
        }
    }

    fn erase(&self) {
        let _ = self.rt.stderr().write_all(b"\r\x1b[K");
    }
}

impl Gate for Progress<'_> {
    fn enter(&self, _piece: u32) {}

    /// Whoever writes the line looks afterwards whether all pieces are finished by then, so that no line stays.
    fn leave(&self, _piece: u32) {
        let Some(begun) = &self.begun else {
            return;
        };
        let finished = self
            .finished
            .fetch_add(1, Ordering::SeqCst)
            .saturating_add(1);
        if finished >= self.pieces {
            if self.told.load(Ordering::SeqCst) > 0 {
                self.erase();
            }
        } else if self.is_due(begun) {
            self.tell();
            if self.finished.load(Ordering::SeqCst) >= self.pieces {
                self.erase();
            }
        }
    }
}
