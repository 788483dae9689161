// The figures of a sheet, hour by hour; hours with the same figures share a line.
use number::read_number;
use std::alloc::{AllocError, Global};
use wording::{Hours, Tenths};

// The figures of one hour, in megawatts, and the place after them; it reads by `read_number`, which takes a place.
fn hour_figures(
    heap: Global,
    bytes: &[u8],
    at: usize,
    width: usize,
) -> Result<(String, usize), AllocError> {
    let mut figures = String::new(heap);
    let mut next = at;
    // each figure begins where the one before it ends, so a chain of iterators would carry the place as this loop does
    for _figure in 0..width {
        let (figure, after) = read_number(bytes, next).unwrap_or((0, next));
        write!(figures, " {}", Tenths(figure))?;
        next = after;
    }
    Ok((figures, next))
}

// Adds a line for hours with the same figures.
fn add_line(lines: &mut String, first: u32, last: u32, figures: &str) -> Result<(), AllocError> {
    let hours = Hours {
        first,
        last,
        figures,
    };
    write!(lines, "    {hours}\n")?;
    Ok(())
}

// The lines of all figures of a sheet, by the bytes that hold them and the number of figures an hour. They are printed
// together: a call that prints writes to standard output at its end, so a line apart would cost a write each.
pub(crate) fn figure_lines(heap: Global, bytes: &[u8], width: usize) -> Result<String, AllocError> {
    let mut lines = String::new(heap);
    let (mut same, mut next) = hour_figures(heap, bytes, 0, width)?;
    let mut first = 1;
    // the hour is what is printed, and every hour but the first is compared with those before it
    for hour in 2..=24 {
        let (figures, after) = hour_figures(heap, bytes, next, width)?;
        if figures.as_str() != same.as_str() {
            add_line(&mut lines, first, hour - 1, same.as_str())?;
            first = hour;
            same = figures;
        }
        next = after;
    }
    add_line(&mut lines, first, 24, same.as_str())?;
    Ok(lines)
}
