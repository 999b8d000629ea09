//! Orders of workers' steps.

ghost use Rattle.std.specs.Prelude.{◌≡◌, ◌<◌, ◌≤◌, ◌^◌, length, IfOk, IsSome};
ghost use Rattle.commands.specs.declared.order.order.OrderError.TheVariants.{Form, Memory as OutOfMemory};
ghost use Rattle.commands.specs.Order.Numbers.{with_number};
ghost use Rattle.commands.specs.Order.Order.{is_white, IsNoOrder, IsOrder};

use crate::order::number::with_byte;
use std::alloc::{AllocError, Global};

/// The most steps of an order.
const MOST_STEPS: usize = 1 << 24;

/// Why a text was not read.
#[derive(Clone, Copy, Drop)]
pub enum OrderError {
    /// O1: the text is no order of workers' numbers.
    Form,
    /// Memory ran out.
    Memory,
}

impl From<AllocError> for OrderError {
    ghost from_gives = { λ _ e. e ≡ OutOfMemory };

    fn from(_: AllocError) -> OrderError {
        OrderError::Memory
    }
}

fn is_white(byte: u8) -> bool
    ensures { result ≡ is_white byte }
{
    matches!(byte, b' ' | b'\t' | b'\n' | b'\r')
}

// Ends a number, if one stands before the white space.
fn end_number(workers: &mut Vec<u8>, number: Option<u8>) -> Result<(), OrderError>
    requires { length workers.old.items ≤ 2 ^ 24 }
    ensures ended { IfOk result (λ _. workers.new.items ≡ with_number workers.old.items number) }
    ensures few { IfOk result (λ _. length workers.new.items ≤ 2 ^ 24) }
    ensures refused { result ≡ Err Form → IsSome number × (2 ^ 24 ≤ length workers.old.items) }
{
    match number {
        None => Ok(()),
        Some(_) if workers.len() >= MOST_STEPS => Err(OrderError::Form),
        Some(number) => match workers.push(number) {
            Ok(()) => Ok(()),
            Err(_) => Err(OrderError::Memory),
        },
    }
}

/// Reads the text of an order: a worker's number from 0 to 63 for each step, in decimals without leading zeros, between
/// white space; white space alone is the empty order. It has at most 2^24 steps.
///
/// # Errors
/// `Form` where the text is no order, `Memory` where memory runs out.
pub fn read(alloc: Global, text: &str) -> Result<Vec<u8>, OrderError>
    ensures order { IfOk result (λ workers. IsOrder text.now workers.items) }
    ensures refused { result ≡ Err Form → IsNoOrder text.now }
{
    let mut workers = Vec::new(alloc);
    let mut number = None;
    for byte in text.as_bytes() {
        number = if is_white(*byte) {
            end_number(&mut workers, number)?;
            None
        } else {
            Some(with_byte(number, *byte).ok_or(OrderError::Form)?)
        };
    }
    end_number(&mut workers, number)?;
    Ok(workers)
}
