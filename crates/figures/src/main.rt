// The figures of a drawer of images: document 02, order 6. It reads standard input, and prints a line for each image and the total. docs/FIGURES.md tells
// how the desk uses it. Proved: what comes of exactly the bytes that were read, from totals that begin with those of no image; that it goes on until a total,
// too many images or a failure, and that a failed read is one; the text of each line. Run, and not proved: that `read` hands over the bytes of standard input
// in their order, that what a turn answers is written, and nothing else, and that no word is taken on the command line.
#![tactic(auto)]

ghost use Rattle.std.specs.Prelude.{◌≡◌, true, [], ◌<◌, length};
ghost use Rattle.io.specs.Counts.{IsPrefixLen};
ghost use Rattle.figures.specs.Drawer.{totals_of, totals_with, most_images, step_of, After, OfSheets, OfSheet, stop_of, FilledTo, Buffers, SheetIn, is_failure, has_failed, SaidAs, is_printed, is_last, Turned};
ghost use Rattle.figures.specs.Text.{number_then, three_text, line_text, text_of, Holds, Added, Spells};

use image_figures::{Figures, LENGTH_SIZE};
use std::env::{Env, FillError};
use std::io::{Cursor, Error, Print, Read, Write};

// ---- the totals

const MOST_IMAGES: u64 = 4096;

#[derive(Clone, Copy)]
struct Totals {
    images: u64,
    good: u64,
    rows: u64,
    classes: u64,
}

// What is printed: a line for each image, with the figures of a good one, and the last line.
#[derive(Clone, Copy)]
enum Output {
    Image(Option<Figures>),
    Total(Totals),
    TooMany,
}

#[derive(Clone, Copy)]
struct Step {
    totals: Totals,
    output: Output,
    more: bool,
}

fn counted(totals: Totals, line: Option<Figures>) -> Totals
    requires of_sheets { OfSheets totals }
    requires images_lt_most_images { totals.images < most_images }
    requires of_sheet { OfSheet line }
    ensures { After totals (totals_with line) result }
{
    let images = totals.images + 1;
    match line {
        None => Totals { images, ..totals },
        Some(figures) => Totals {
            images,
            good: totals.good + 1,
            rows: totals.rows + figures.rows,
            classes: totals.classes + figures.classes,
        },
    }
}

// What comes of the bytes of a length, as many as there are, and of those after it.
fn next_step(totals: Totals, said: &[u8], image: &[u8]) -> Step
    requires { OfSheets totals }
    ensures { After totals (step_of said.now image.now) result }
{
    if said.len() == 0 {
        return Step {
            totals,
            output: Output::Total(totals),
            more: false,
        };
    }
    if totals.images == MOST_IMAGES {
        return Step {
            totals,
            output: Output::TooMany,
            more: false,
        };
    }
    let line = image_figures::line_of(said, image);
    Step {
        totals: counted(totals, line),
        output: Output::Image(line),
        more: true,
    }
}

// ---- reading

// Why a part was filled no further.
#[derive(Clone, Copy)]
enum Stop {
    Full,
    Ended,
    Failed(Error),
}

#[derive(Clone, Copy)]
struct Filled {
    count: usize,
    stop: Stop,
}

// Of what `read` answers where it reads no byte.
fn stop_of(got: Result<usize, Error>) -> Stop
    ensures { result ≡ stop_of got }
{
    match got {
        Ok(_) => Stop::Ended,
        Err(error) => Stop::Failed(error),
    }
}

// Reads until a part is full, the input ends or a read fails.
fn fill(rt: &HostRuntime, part: &mut [u8]) -> Filled
    ensures { FilledTo (length part.new) result }
{
    let mut input = rt.stdin();
    let mut count: usize = 0;
    while count < part.len() {
        let got = input.read(&mut part[count..]);
        let more = got.unwrap_or(0);
        if more == 0 {
            return Filled {
                count,
                stop: stop_of(got),
            };
        }
        count += more;
    }
    Filled {
        count,
        stop: Stop::Full,
    }
}

// Of a length, and of the image after it, how many bytes were there.
#[derive(Clone, Copy)]
struct SheetRead {
    said: Filled,
    image: Filled,
}

fn read_sheet(rt: &HostRuntime, said: &mut [u8], image: &mut [u8]) -> SheetRead
    requires { Buffers said.old image.old }
    ensures { SheetIn said.new image.new result }
{
    let head = fill(rt, said);
    let there = head.count;
    let size = image_figures::size_said(&said[..there]) as usize;
    let rest = fill(rt, &mut image[..size]);
    SheetRead {
        said: head,
        image: rest,
    }
}

fn is_failed(filled: Filled) -> bool
    ensures { result ≡ is_failure filled.stop }
{
    matches!(filled.stop, Stop::Failed(_))
}

fn has_failed(sheet: SheetRead) -> bool
    ensures { result ≡ has_failed sheet }
{
    is_failed(sheet.said) | is_failed(sheet.image)
}

// ---- printing: each line is made in full, and written at once

// `total ` and three numbers of 20 digits would have 69 bytes.
const TEXT_SIZE: usize = 80;

#[derive(Clone, Copy)]
struct Text {
    bytes: [u8; TEXT_SIZE],
    length: usize,
}

fn no_text() -> Text
    ensures { Holds [] result }
{
    Text {
        bytes: [0; TEXT_SIZE],
        length: 0,
    }
}

// The text, and after it as many bytes as there is room for, which is all of any line.
fn with(text: Text, part: &[u8]) -> Text
    requires { IsPrefixLen text.length text.bytes }
    ensures { Added text part.now result }
{
    let mut bytes = text.bytes;
    let n = part.len().min(TEXT_SIZE - text.length);
    let length = text.length + n;
    bytes[text.length..length].copy_from_slice(&part[..n]);
    Text { bytes, length }
}

fn with_number(text: Text, number: u64, end: &[u8]) -> Text
    requires { IsPrefixLen text.length text.bytes }
    ensures { Added text (number_then number end.now) result }
{
    let mut digits = [0u8; 20];
    let count = io::decimal(number, &mut digits);
    with(with(text, &digits[..count]), end)
}

fn with_three(text: Text, one: u64, two: u64, three: u64) -> Text
    requires { IsPrefixLen text.length text.bytes }
    ensures { Added text (three_text one two three) result }
{
    let first = with_number(text, one, b" ");
    let second = with_number(first, two, b" ");
    with_number(second, three, b"\n")
}

fn text_of_line(line: Option<Figures>) -> Text
    ensures { Holds (line_text line) result }
{
    match line {
        None => with(no_text(), b"bad\n"),
        Some(figures) => with_three(no_text(), figures.rows, figures.classes, figures.largest),
    }
}

fn text_of(output: Output) -> Text
    ensures { Spells (text_of output) result }
{
    match output {
        Output::Image(line) => text_of_line(line),
        Output::Total(totals) => with_three(
            with(no_text(), b"total "),
            totals.good,
            totals.rows,
            totals.classes,
        ),
        Output::TooMany => with(no_text(), b"too many\n"),
    }
}

// A line on standard error: what failed, and the reason in the system's words. std writes the number of the reason after them, which is left out.
fn tell_failure(rt: &HostRuntime, what: &str, error: Error) {
    let mut bytes = [0u8; 128];
    let mut text = Cursor::new(bytes.as_mut_slice());
    let _ = write!(text, "{error}");
    let end = text.position() as usize;
    let length = end.min(bytes.len());
    let words = match std::str::from_utf8(&bytes[..length]) {
        Ok(words) => words,
        Err(_) => "",
    };
    let reason = match words.split_once(" (os error ") {
        Some((reason, _)) => reason,
        None => words,
    };
    let _ = eprintln!(rt; "{what}: {reason}");
}

// Says that the drawer could not be read.
fn tell_unread(rt: &HostRuntime, sheet: SheetRead) {
    for filled in [sheet.said, sheet.image] {
        if let Stop::Failed(error) = filled.stop {
            tell_failure(rt, "standard input", error);
            return;
        }
    }
}

// What is said: nothing before the first turn; what was printed; or, on standard error, that the drawer could not be read, or the line not written.
#[derive(Clone, Copy)]
enum Told {
    Nothing,
    Printed(Output),
    Unread,
    Unwritten,
}

fn print(rt: &HostRuntime, output: Output) -> Told
    ensures { SaidAs output result }
{
    let text = text_of(output);
    if let Err(error) = Print::write_all(rt, &text.bytes[..text.length]) {
        tell_failure(rt, "standard output", error);
        return Told::Unwritten;
    }
    Told::Printed(output)
}

fn is_printed(told: Told) -> bool
    ensures { result ≡ is_printed told }
{
    matches!(told, Told::Printed(_))
}

// ---- the drawer

#[derive(Clone, Copy)]
struct Turn {
    totals: Totals,
    told: Told,
    more: bool,
}

// What comes of a sheet that was read is printed.
fn take_turn(rt: &HostRuntime, totals: Totals, sheet: SheetRead, said: &[u8], image: &[u8]) -> Turn
    requires of_sheets { OfSheets totals }
    requires buffers { Buffers said.now image.now }
    requires sheet_in { SheetIn said.now image.now sheet }
    ensures { Turned totals sheet said.now image.now result }
{
    if has_failed(sheet) {
        tell_unread(rt, sheet);
        return Turn {
            totals,
            told: Told::Unread,
            more: false,
        };
    }
    let there = sheet.said.count;
    let long = sheet.image.count;
    let step = next_step(totals, &said[..there], &image[..long]);
    let told = print(rt, step.output);
    Turn {
        totals: step.totals,
        told,
        more: is_printed(told) & step.more,
    }
}

fn no_totals() -> Totals
    ensures { result ≡ totals_of [] }
{
    Totals {
        images: 0,
        good: 0,
        rows: 0,
        classes: 0,
    }
}

// Answers with what is said last.
fn report(rt: &HostRuntime, said: &mut [u8], image: &mut [u8]) -> Told
    requires { Buffers said.old image.old }
    ensures { is_last result ≡ true }
{
    let mut totals = no_totals();
    let mut told = Told::Nothing;
    let mut more = true;
    while more {
        let sheet = read_sheet(rt, said, image);
        let turn = take_turn(rt, totals, sheet, said, image);
        totals = turn.totals;
        told = turn.told;
        more = turn.more;
    }
    told
}

// Whether there is a word on the command line.
fn has_words(rt: &HostRuntime) -> bool {
    let mut word = [0u8; 1];
    match rt.arg(1, &mut word) {
        Ok(_) => true,
        Err(FillError::TooLong) => true,
        Err(FillError::NotPresent) => false,
    }
}

fn main(rt: HostRuntime) {
    if has_words(&rt) {
        let _ = rt.eprintln("usage: figures < DRAWER");
        return;
    }
    let mut said = [0u8; LENGTH_SIZE];
    let mut image = io::large_buffer();
    report(&rt, &mut said, &mut image);
}
