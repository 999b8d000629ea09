//! Gates that hear of pieces while workers compute them, and let them wait.

use crew::Gate;
use crossbeam_utils::Backoff;
use std::sync::atomic::{AtomicU32, AtomicU64, Ordering};

// The most turns for which a gate waits.
const TURNS: u32 = 1_000_000;

// Whether the word comes to be the one wanted while a gate waits.
fn comes(word: &AtomicU32, wanted: u32) -> bool {
    let backoff = Backoff::new();
    for _turn in 0..TURNS {
        if word.load(Ordering::SeqCst) == wanted {
            return true;
        }
        backoff.snooze();
    }
    false
}

// How many calls told of pieces, and 2 to the power of each piece told of, added up. So many powers of two have the sum of the
// first so many only where they are these, each once.
#[derive(Drop)]
struct Tally {
    calls: AtomicU32,
    powers: AtomicU64,
}

impl Tally {
    fn new() -> Tally {
        Tally {
            calls: AtomicU32::new(0),
            powers: AtomicU64::new(0),
        }
    }

    // How many calls there were before.
    fn add(&self, piece: u32) -> u32 {
        if piece < 63 {
            self.powers.fetch_add(1 << piece, Ordering::SeqCst);
        }
        self.calls.fetch_add(1, Ordering::SeqCst)
    }

    // Whether it was told of the first so many pieces, once each.
    fn is_each_once(&self, pieces: u32) -> bool {
        pieces < 63
            && self.calls.load(Ordering::SeqCst) == pieces
            && self.powers.load(Ordering::SeqCst) == (1 << pieces) - 1
    }
}

/// A gate that counts.
#[derive(Drop)]
pub(crate) struct Counting {
    came: Tally,
    went: Tally,
}

impl Counting {
    /// One that has heard of no piece.
    pub(crate) fn new() -> Counting {
        Counting {
            came: Tally::new(),
            went: Tally::new(),
        }
    }

    /// Whether it heard of the first so many pieces, once each, before and after.
    pub(crate) fn is_each_once(&self, pieces: u32) -> bool {
        self.came.is_each_once(pieces) && self.went.is_each_once(pieces)
    }
}

impl Gate for Counting {
    fn enter(&self, piece: u32) {
        self.came.add(piece);
    }

    fn leave(&self, piece: u32) {
        self.went.add(piece);
    }
}

/// A gate at which the first piece waits until a second is entered.
#[derive(Drop)]
pub(crate) struct Meeting {
    heard: Counting,
    met: AtomicU32,
    late: AtomicU32,
}

impl Meeting {
    /// One that has heard of no piece.
    pub(crate) fn new() -> Meeting {
        Meeting {
            heard: Counting::new(),
            met: AtomicU32::new(0),
            late: AtomicU32::new(0),
        }
    }

    /// Whether no turns ran out, and it heard of so many pieces, once each.
    pub(crate) fn was_held(&self, pieces: u32) -> bool {
        self.late.load(Ordering::SeqCst) == 0 && self.heard.is_each_once(pieces)
    }
}

impl Gate for Meeting {
    fn enter(&self, piece: u32) {
        if self.heard.came.add(piece) > 0 {
            self.met.store(1, Ordering::SeqCst);
        } else if !comes(&self.met, 1) {
            self.late.store(1, Ordering::SeqCst);
        }
    }

    fn leave(&self, piece: u32) {
        self.heard.went.add(piece);
    }
}

/// A gate at which each of three pieces waits until those before it in the order have left.
#[derive(Drop)]
pub(crate) struct InOrder {
    order: [u32; 3],
    heard: Counting,
    late: AtomicU32,
}

impl InOrder {
    /// One at which the pieces go on in this order.
    pub(crate) fn new(order: [u32; 3]) -> InOrder {
        InOrder {
            order,
            heard: Counting::new(),
            late: AtomicU32::new(0),
        }
    }

    // How many pieces come before this one.
    fn before(&self, piece: u32) -> u32 {
        let [first, second, _] = self.order;
        if piece == first {
            0
        } else if piece == second {
            1
        } else {
            2
        }
    }

    /// Whether no turns ran out, and it heard of three pieces, once each.
    pub(crate) fn was_kept(&self) -> bool {
        self.late.load(Ordering::SeqCst) == 0 && self.heard.is_each_once(3)
    }
}

impl Gate for InOrder {
    fn enter(&self, piece: u32) {
        self.heard.came.add(piece);
        if !comes(&self.heard.went.calls, self.before(piece)) {
            self.late.store(1, Ordering::SeqCst);
        }
    }

    fn leave(&self, piece: u32) {
        self.heard.went.add(piece);
    }
}
