//! What each byte of a file does, and what its end does.

ghost use Rattle.std.specs.Prelude.{◌≡◌, IsTrue};
ghost use Rattle.pnm.specs.Bytes.{is_space, ends_comment, is_digit, grown};
ghost use Rattle.pnm.specs.Reading.{form_of, item, raster, after_number, after_sample, raw_sample, after_digits, after_last, between, is_wanted, step, finish};

use crate::error::PnmError;
use crate::state::{Field, Form, State, Step, Wanted};

// The greatest number that a header may give for a sample.
const GREATEST_MAX: u32 = 65535;

fn is_space(byte: u8) -> bool
    ensures { result ≡ is_space byte }
{
    matches!(byte, b' ' | b'\t' | b'\r' | b'\n')
}

fn ends_comment(byte: u8) -> bool
    ensures { result ≡ ends_comment byte }
{
    matches!(byte, b'\r' | b'\n')
}

fn is_digit(byte: u8) -> bool
    ensures { result ≡ is_digit byte }
{
    byte.is_ascii_digit()
}

// The number with one more digit.
fn grown(value: u32, byte: u8) -> u32
    requires { IsTrue (is_digit byte) }
    ensures { result ≡ grown value byte }
{
    value
        .saturating_mul(10)
        .saturating_add(u32::from(byte - b'0'))
}

// The form of the raster that the magic's second byte names.
fn form_of(has_colours: bool, byte: u8) -> Option<Form>
    ensures { result ≡ form_of has_colours byte }
{
    match (has_colours, byte) {
        (true, b'6') | (false, b'5') => Some(Form::Raw),
        (true, b'3') | (false, b'2') => Some(Form::Plain),
        _ => None,
    }
}

// An item of a gap begins.
fn item(form: Form, field: Field, byte: u8) -> Step
    ensures { result ≡ item form field byte }
{
    if is_space(byte) {
        Step::Next(State::Gap { form, field })
    } else if byte == b'#' {
        Step::Next(State::Comment { form, field })
    } else {
        Step::Fault(PnmError::Malformed)
    }
}

// A raster of so many samples begins.
fn raster(form: Form, max: u16, count: usize) -> State
    ensures { result ≡ raster form max count }
{
    match form {
        Form::Raw => State::First { max, left: count },
        Form::Plain => State::Between { max, left: count },
    }
}

fn is_wanted(wanted: &Wanted, width: u32, height: u32, max: u32) -> bool
    ensures { result ≡ is_wanted wanted.now width height max }
{
    width == wanted.width && height == wanted.height && max <= wanted.max_sample
}

// A byte that is no digit follows a number of the header.
fn after_number(wanted: &Wanted, form: Form, field: Field, value: u32, byte: u8) -> Step
    ensures { result ≡ after_number wanted.now form field value byte }
{
    match field {
        Field::Width => item(form, Field::Height { width: value }, byte),
        Field::Height { width } => {
            let height = value;
            item(form, Field::Max { width, height }, byte)
        }
        Field::Max { width, height } => {
            if !is_space(byte) || value < 1 || value > GREATEST_MAX {
                Step::Fault(PnmError::Malformed)
            } else if is_wanted(wanted, width, height, value) {
                Step::Next(raster(form, value as u16, wanted.count))
            } else {
                Step::Fault(PnmError::OtherImage)
            }
        }
    }
}

// What comes after a sample.
fn after_sample(form: Form, max: u16, left: usize) -> State
    ensures { result ≡ after_sample form max left }
{
    if left <= 1 {
        State::Done { form }
    } else {
        raster(form, max, left - 1)
    }
}

// A sample of a raw raster is whole.
fn raw_sample(max: u16, left: usize, value: u16) -> Step
    ensures { result ≡ raw_sample max left value }
{
    if value <= max {
        Step::Sample(value, after_sample(Form::Raw, max, left))
    } else {
        Step::Fault(PnmError::AboveMax)
    }
}

// A byte that is no digit follows a sample of a plain raster.
fn after_digits(max: u16, left: usize, value: u32, byte: u8) -> Step
    ensures { result ≡ after_digits max left value byte }
{
    if value > u32::from(max) {
        Step::Fault(PnmError::AboveMax)
    } else if is_space(byte) {
        Step::Sample(value as u16, after_sample(Form::Plain, max, left))
    } else if left <= 1 {
        Step::Fault(PnmError::Trailing)
    } else {
        Step::Fault(PnmError::Malformed)
    }
}

// A byte follows the last sample.
fn after_last(form: Form, byte: u8) -> Step
    ensures { result ≡ after_last form byte }
{
    if form == Form::Plain && is_space(byte) {
        Step::Next(State::Done { form })
    } else {
        Step::Fault(PnmError::Trailing)
    }
}

/// What the next byte does.
pub(crate) fn step(wanted: &Wanted, state: State, byte: u8) -> Step
    ensures { result ≡ step wanted.now state byte }
{
    match state {
        State::Start if byte == b'P' => Step::Next(State::Letter),
        State::Start => Step::Fault(PnmError::Magic),
        State::Letter => match form_of(wanted.has_colours, byte) {
            Some(form) => Step::Next(State::Magic { form }),
            None => Step::Fault(PnmError::Magic),
        },
        State::Magic { form } => item(form, Field::Width, byte),
        State::Gap { form, field } if is_digit(byte) => {
            let value = u32::from(byte - b'0');
            Step::Next(State::Number { form, field, value })
        }
        State::Gap { form, field } => item(form, field, byte),
        State::Comment { form, field } if ends_comment(byte) => {
            Step::Next(State::Gap { form, field })
        }
        State::Comment { .. } => Step::Next(state),
        State::Number { form, field, value } if is_digit(byte) => {
            let value = grown(value, byte);
            Step::Next(State::Number { form, field, value })
        }
        State::Number { form, field, value } => after_number(wanted, form, field, value, byte),
        State::First { max, left } if max < 256 => raw_sample(max, left, u16::from(byte)),
        State::First { max, left } => {
            let high = byte;
            Step::Next(State::Second { max, left, high })
        }
        State::Second { max, left, high } => {
            raw_sample(max, left, u16::from(high) * 256 + u16::from(byte))
        }
        State::Between { max, left } => between(max, left, byte),
        State::Digits { max, left, value } if is_digit(byte) => {
            let value = grown(value, byte);
            Step::Next(State::Digits { max, left, value })
        }
        State::Digits { max, left, value } => after_digits(max, left, value, byte),
        State::Done { form } => after_last(form, byte),
    }
}

// A byte of a plain raster, where no digits of a sample stand before it.
fn between(max: u16, left: usize, byte: u8) -> Step
    ensures { result ≡ between max left byte }
{
    if is_space(byte) {
        Step::Next(State::Between { max, left })
    } else if is_digit(byte) {
        let value = u32::from(byte - b'0');
        Step::Next(State::Digits { max, left, value })
    } else {
        Step::Fault(PnmError::Malformed)
    }
}

/// What the end of the file does: it may end the last sample of a plain raster.
pub(crate) fn finish(state: State) -> Result<Option<u16>, PnmError>
    ensures { result ≡ finish state }
{
    match state {
        State::Start | State::Letter => Err(PnmError::Magic),
        State::Digits { max, value, .. } if value > u32::from(max) => Err(PnmError::AboveMax),
        State::Digits { left, value, .. } if left <= 1 => Ok(Some(value as u16)),
        State::Done { .. } => Ok(None),
        _ => Err(PnmError::TooShort),
    }
}
