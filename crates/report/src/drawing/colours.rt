//! Colours for pieces, so that pieces that touch have different ones.

use crate::drawing::canvas::Canvas;
use std::alloc::{AllocError, Global};

/// A colour: how much there is of each light.
#[derive(Clone, Copy, PartialEq, Eq, Drop)]
pub(crate) struct Colour {
    pub red: u8,
    pub green: u8,
    pub blue: u8,
}

/// What a pixel has that no piece has set.
pub(crate) const GREY: Colour = Colour {
    red: 128,
    green: 128,
    blue: 128,
};

/// How many colours pieces may have.
const COLOURS: usize = 16;

fn rgb(red: u8, green: u8, blue: u8) -> Colour {
    Colour { red, green, blue }
}

/// The colour of a number; pieces take the lowest one that is free.
fn numbered(number: usize) -> Colour {
    match number {
        0 => rgb(67, 99, 216),
        1 => rgb(245, 130, 49),
        2 => rgb(60, 180, 75),
        3 => rgb(255, 225, 25),
        4 => rgb(145, 30, 180),
        5 => rgb(66, 212, 244),
        6 => rgb(230, 25, 75),
        7 => rgb(191, 239, 69),
        8 => rgb(0, 0, 117),
        9 => rgb(250, 190, 212),
        10 => rgb(128, 0, 0),
        11 => rgb(170, 255, 195),
        12 => rgb(154, 99, 36),
        13 => rgb(220, 190, 255),
        14 => rgb(70, 153, 144),
        _ => rgb(255, 250, 200),
    }
}

/// The colour that a piece was given.
pub(crate) fn colour_of(colours: &[Option<usize>], piece: Option<usize>) -> Colour {
    let Some(piece) = piece else {
        return GREY;
    };
    match colours.get(piece) {
        Some(Some(number)) => numbered(*number),
        _ => GREY,
    }
}

/// Takes away the colour of a piece, if it has one.
fn take(free: &mut [bool], colours: &[Option<usize>], piece: Option<usize>) {
    let Some(piece) = piece else {
        return;
    };
    if let Some(Some(number)) = colours.get(piece)
        && let Some(is_free) = free.get_mut(*number)
    {
        *is_free = false;
    }
}

/// The lowest colour that is free; the first one where none is.
fn lowest(free: &[bool]) -> usize {
    free.iter().position(|is_free| *is_free).unwrap_or(0)
}

/// Takes away the colours of the pieces that own the pixels of a row from one column to another.
fn take_row(
    free: &mut [bool],
    canvas: &Canvas<'_>,
    colours: &[Option<usize>],
    y: u32,
    from: u32,
    to: u32,
) {
    for x in from..=to {
        take(free, colours, canvas.piece(x, y));
    }
}

/// The first column behind those that a piece owns in a row from one column on.
fn row_end(canvas: &Canvas<'_>, piece: usize, x: u32, y: u32) -> u32 {
    for end in x..canvas.width {
        if canvas.piece(end, y) != Some(piece) {
            return end;
        }
    }
    canvas.width
}

/// A colour for a piece whose first row begins at a pixel: one that no piece has which touches this row, at a corner too. A
/// piece that touches it elsewhere begins in a later row, and then finds this one beside or above its own first row.
fn free_colour(
    canvas: &Canvas<'_>,
    colours: &[Option<usize>],
    piece: usize,
    x: u32,
    y: u32,
) -> usize {
    let mut free = [true; COLOURS];
    let (before, behind) = (x.saturating_sub(1), row_end(canvas, piece, x, y));
    take(&mut free, colours, canvas.piece(before, y));
    take(&mut free, colours, canvas.piece(behind, y));
    if let Some(above) = y.checked_sub(1) {
        take_row(&mut free, canvas, colours, above, before, behind);
    }
    lowest(&free)
}

/// Gives the piece of a pixel a colour where it has none.
fn begin(canvas: &Canvas<'_>, colours: &mut [Option<usize>], x: u32, y: u32) {
    let Some(piece) = canvas.piece(x, y) else {
        return;
    };
    let Some(None) = colours.get(piece) else {
        return;
    };
    let number = free_colour(canvas, colours, piece, x, y);
    if let Some(colour) = colours.get_mut(piece) {
        *colour = Some(number);
    }
}

/// Gives the pieces of a row colours.
fn begin_row(canvas: &Canvas<'_>, colours: &mut [Option<usize>], y: u32) {
    for x in 0..canvas.width {
        begin(canvas, colours, x, y);
    }
}

/// The number of each piece's colour; none for a piece that owns no pixel.
pub(crate) fn colours_of(
    alloc: Global,
    canvas: &Canvas<'_>,
    pieces: usize,
) -> Result<Vec<Option<usize>>, AllocError> {
    let mut colours: Vec<Option<usize>> = vec![in alloc; None; pieces]?;
    for y in 0..canvas.height {
        begin_row(canvas, colours.as_mut_slice(), y);
    }
    Ok(colours)
}
