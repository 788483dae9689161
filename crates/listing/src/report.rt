// The whole report on an entry file, line by line.
use crate::figures::figure_lines;
use crate::input::whole_input;
use entryfile::{Entry, Figures, Head, Sheet};
use filereader::{Reader, Survey, read_head, read_through};
use market::{FAMILIES, Family, Opening, figures_in_sheet};
use std::{io, str};
use wording::{Heading, InWords, Tenths};

// The months of the period.
fn print_months(rt: &HostRuntime, opening: &Opening) -> io::Result<()> {
    for (i, month) in opening.months().iter().enumerate() {
        let number = i.saturating_add(1);
        let days = month.days;
        let factor = Tenths(month.factor);
        println!(rt; "  month {number}: business days {days}, factor {factor}")?;
    }
    Ok(())
}

// The zones and their prices.
fn print_zones(rt: &HostRuntime, opening: &Opening) -> io::Result<()> {
    for (i, price) in opening.prices().iter().enumerate() {
        let number = i.saturating_add(1);
        println!(rt; "  zone {number}: price {price} cents for a megawatt-hour")?;
    }
    Ok(())
}

// The opening in plain words.
fn print_opening(rt: &HostRuntime, opening: &Opening) -> io::Result<()> {
    let first = opening.first_hour();
    let last = opening.last_hour();
    let rate = opening.buyout_rate();
    let mark = opening.pass_mark();
    println!(rt; "Opening, version 1")?;
    print_months(rt, opening)?;
    println!(rt; "  availability window: hours {first} to {last}")?;
    print_zones(rt, opening)?;
    println!(rt; "  buy-out rate: {rate} percent")?;
    println!(rt; "  pass mark of a capacity test: {mark} percent")
}

// A reference as text.
fn print_reference(rt: &HostRuntime, reference: &[u8]) -> io::Result<()> {
    if reference.is_empty() {
        return println!(rt; "  no reference");
    }
    match str::from_utf8(reference) {
        Ok(text) => println!(rt; "  reference: {text}"),
        Err(_) => println!(rt; "  reference: not text"),
    }
}

// The figures of a sheet, if the entry is one.
fn print_figures(rt: &HostRuntime, entry: &Entry, families: &[Family]) -> io::Result<()> {
    if let Entry::Sheet(
        Sheet {
            family,
            figures: Figures::Encoded(bytes),
            ..
        },
    ) = *entry
    {
        let count = figures_in_sheet(families, family).unwrap_or(0);
        let lines = figure_lines(rt.alloc(), bytes, count / 24)?;
        println!(rt; "  figures: {count}, in MW")?;
        return print!(rt; "{lines}");
    }
    Ok(())
}

// One entry: its heading, then its fields, its figures and its reference.
fn print_entry(rt: &HostRuntime, heading: Heading<'_>, families: &[Family]) -> io::Result<()> {
    let entry = &heading.turn.entry;
    println!(rt; "{heading}")?;
    println!(rt; "  {}", InWords(entry))?;
    print_figures(rt, entry, families)?;
    print_reference(rt, entry.reference())
}

// What ended the reading, the end of the file or a fault in the entry that begins at a place, and how many entries were
// read whole.
fn print_end(rt: &HostRuntime, place: usize, survey: Survey) -> io::Result<()> {
    let entries = survey.entries;
    match survey.fault {
        Some(fault) => {
            let fault = InWords(fault);
            println!(rt; "FAULT. {fault} The entry itself begins at byte {place}.")?;
        }
        None => println!(rt; "No fault was found.")?,
    }
    println!(rt; "Entries read whole: {entries}")
}

// The entries one by one, up to the end of the file or the first fault; returns the place where the reader stops. File,
// families and head are those of the reader that it makes.
fn print_entries<'a>(
    rt: &HostRuntime,
    file: &'a [u8],
    families: &'a [Family],
    head: Head,
) -> io::Result<usize> {
    let mut reader = Reader::new(file, families, head);
    let mut place = reader.place();
    while let Ok(Some(turn)) = reader.next_entry() {
        let heading = Heading {
            count: reader.entries(),
            place,
            turn: &turn,
        };
        print_entry(rt, heading, families)?;
        place = reader.place();
    }
    Ok(place)
}

// The report on a file of at most 65,536 bytes.
pub fn inspect<'a>(rt: &HostRuntime, file: &'a [u8], families: &'a [Family]) -> io::Result<()> {
    let size = file.len();
    println!(rt; "Entry file of {size} bytes")?;
    match read_head(file) {
        Ok(head) => {
            print_opening(rt, &head.opening)?;
            let place = print_entries(rt, file, families, head)?;
            print_end(rt, place, read_through(file, families, head))
        }
        Err(fault) => {
            println!(rt; "FAULT. {}", InWords(fault))?;
            println!(rt; "Entries read whole: 0")
        }
    }
}

// Reads a file from standard input and reports on it; a longer input is reported as too long.
pub fn run(rt: &HostRuntime) -> io::Result<()> {
    match whole_input(rt)? {
        Some(file) => inspect(rt, file.as_slice(), &FAMILIES),
        None => println!(rt;
            "The input is too long: an entry file has at most 65536 bytes. Nothing was read."
        ),
    }
}
