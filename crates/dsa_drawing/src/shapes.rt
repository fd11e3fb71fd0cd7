//! The parts of a picture.

use crate::texts::{SIZE, letter_size, letters_in, push_cut, push_escaped, wrapped};
use std::alloc::{AllocError, Global};

/// Where something begins: how far from the left, and from the top.
#[derive(Clone, Copy)]
pub(crate) struct Spot {
    pub(crate) x: usize,
    pub(crate) y: usize,
}

/// A spot.
pub(crate) fn place(x: usize, y: usize) -> Spot {
    Spot { x, y }
}

/// How wide and how high something is.
#[derive(Clone, Copy)]
pub(crate) struct Extent {
    pub(crate) width: usize,
    pub(crate) height: usize,
}

/// Opens a group of parts of this class, with a title that a browser shows under the pointer.
pub(crate) fn open(svg: &mut String, class: &str, title: &str) -> Result<(), AllocError> {
    write!(svg, "<g class=\"{class}\"><title>")?;
    push_escaped(svg, title)?;
    svg.push_str("</title>")
}

/// Closes it.
pub(crate) fn close(svg: &mut String) -> Result<(), AllocError> {
    svg.push_str("</g>\n")
}

/// Writes a rectangle with these further attributes.
pub(crate) fn push_box(
    svg: &mut String,
    at: Spot,
    extent: Extent,
    paint: &str,
) -> Result<(), AllocError> {
    let (x, y, width, height) = (at.x, at.y, extent.width, extent.height);
    write!(svg, "<rect x=\"{x}\" y=\"{y}\" ")?;
    write!(svg, "width=\"{width}\" height=\"{height}\" {paint}/>")
}

/// Writes a line with these further attributes.
pub(crate) fn push_line(
    svg: &mut String,
    from: Spot,
    to: Spot,
    paint: &str,
) -> Result<(), AllocError> {
    let (left, top, right, bottom) = (from.x, from.y, to.x, to.y);
    write!(svg, "<line x1=\"{left}\" y1=\"{top}\" ")?;
    write!(svg, "x2=\"{right}\" y2=\"{bottom}\" {paint}/>")
}

/// Writes a text in letters that are small enough for this width, or the beginning of it.
pub(crate) fn push_text(
    svg: &mut String,
    at: Spot,
    width: usize,
    words: &str,
) -> Result<(), AllocError> {
    let (x, y, size) = (at.x, at.y, letter_size(words, width));
    write!(svg, "<text x=\"{x}\" y=\"{y}\"")?;
    if size != SIZE {
        write!(svg, " font-size=\"{size}\"")?;
    }
    svg.push_str(">")?;
    push_cut(svg, words, letters_in(width, size))?;
    svg.push_str("</text>")
}

/// Writes a text in lines of this width, of which the first is at the spot.
pub(crate) fn push_wrapped(
    alloc: Global,
    svg: &mut String,
    at: Spot,
    width: usize,
    words: &str,
) -> Result<(), AllocError> {
    let mut y = at.y;
    for line in &wrapped(alloc, words, letters_in(width, SIZE))? {
        push_text(svg, place(at.x, y), width, line)?;
        y = y.saturating_add(13);
    }
    Ok(())
}

/// Writes a text, or so many letters of it, that is read from the bottom to the top, and begins or ends at the spot.
pub(crate) fn push_turned(
    svg: &mut String,
    at: Spot,
    anchor: &str,
    words: &str,
    most: usize,
) -> Result<(), AllocError> {
    let (x, y) = (at.x, at.y);
    write!(svg, "<text x=\"{x}\" y=\"{y}\" text-anchor=\"{anchor}\" ")?;
    write!(svg, "transform=\"rotate(-90 {x} {y})\">")?;
    push_cut(svg, words, most)?;
    svg.push_str("</text>")
}

/// Writes the head of a picture of this size, its title and its ground.
pub(crate) fn push_head(svg: &mut String, extent: Extent, title: &str) -> Result<(), AllocError> {
    let (width, height) = (extent.width, extent.height);
    svg.push_str("xmlns=\"http://www.w3.org/2000/svg\" role=\"img\" ")?;
    write!(svg, "width=\"{width}\" height=\"{height}\" ")?;
    write!(svg, "viewBox=\"0 0 {width} {height}\" ")?;
    svg.push_str("font-family=\"monospace\" font-size=\"11\">\n<title>")?;
    push_escaped(svg, title)?;
    svg.push_str("</title>\n<rect width=\"100%\" height=\"100%\" fill=\"white\"/>\n")
}
