// The shift page of the status reports on standard input, for the board.
use crate::lines::{Block, Line, write_out};
use answers::page::read_report;
use output::Output;
use request_line::reasons::{Reason, check_fields, put_bad};
use request_line::values::Form;
use std::io;
use std::io::Read;
use std::ops::Range;
use text_fields::fields::{Fields, field};
use text_fields::slices::{find, first};
use tpdu::{Refusal, SmsStatusReport};
use wording::refusals::{Audience, put_refused};

// ---- lines

// Holds the next line, and reads more of the input where its octets end before the line does; none at the end of the
// input. What it has after its last line feed is a line. `rest` is where the octets of the input lie that follow the line.
// No input has as many turns as are counted.
fn next_line<I: Read>(
    reader: &mut I,
    input: &mut Block,
    line: &mut Line,
    rest: Range<usize>,
) -> io::Result<Option<Range<usize>>> {
    line.clear();
    let Range {
        start: mut from,
        mut end,
    } = rest;
    for _ in 0..u64::MAX {
        let held = first(input, end);
        if let Some(feed) = find(held, from, b'\n') {
            line.add(&held[from..feed]);
            line.trim_cr();
            return Ok(Some(feed + 1..end));
        }
        line.add(held.get(from..).unwrap_or_default());
        from = 0;
        end = reader.read(input)?;
        if end == 0 {
            break;
        }
    }
    if line.is_empty() {
        return Ok(None);
    }
    Ok(Some(from..end))
}

// ---- reports

// Why a line gives no report: the reason against it, or the reader's refusal.
#[derive(Clone, Copy)]
enum Against {
    Line(Reason),
    Octets(Refusal),
}

// Whether a line is that of a status report.
fn check_line(line: &[u8]) -> Result<(), Reason> {
    let name = field(line, 0).ok_or(Reason::EmptyLine)?;
    if name != b"status-report".as_slice() {
        return Err(Reason::UnknownRequest);
    }
    check_fields(&[Form::Word, Form::Octets], line)
}

// The status report that a line holds.
fn report_of(line: &Line) -> Result<SmsStatusReport, Against> {
    let line = line.held().map_err(Against::Line)?;
    check_line(line).map_err(Against::Line)?;
    read_report(Fields::of(line).last().unwrap_or_default()).map_err(Against::Octets)
}

// ---- what is said

fn put_against(out: &mut Output, against: Against) {
    match against {
        Against::Line(reason) => put_bad(out, reason),
        Against::Octets(why) => put_refused(out, why, Audience::People),
    }
}

// Tells a line that holds no status report, or one that can't be read.
fn tell<R: Print>(rt: &R, number: u64, against: Against, out: &mut Output) -> io::Result<()> {
    out.put(b"line ");
    out.put_decimal(number);
    out.put(b": ");
    put_against(out, against);
    out.put(b"\n");
    write_out(rt, out)
}

fn tell_refused<R: Print>(rt: &R, refusal: Refusal, out: &mut Output) -> io::Result<()> {
    put_refused(out, refusal, Audience::People);
    out.put(b"\n");
    write_out(rt, out)
}

// ---- the shift

// The reports of a shift: the first 100 of them, which are one more than a page has, how many there were, and whether
// another line was told. It is told beside them, in no `Option`: a page that is refused is told too, whatever other lines
// were.
#[derive(Clone, Copy)]
struct Shift {
    reports: [SmsStatusReport; 100],
    count: usize,
    told: bool,
}

impl Shift {
    // The reports that are held.
    fn held(&self) -> &[SmsStatusReport] {
        self.reports.get(..self.count).unwrap_or(&self.reports)
    }
}

// Reads the lines of standard input to its end, and tells those that hold no report that can be read.
fn read_shift<R: Input + Print>(rt: &R, out: &mut Output) -> io::Result<Shift> {
    let mut reader = rt.reader();
    let mut input = [0u8; 65536];
    let mut line = Line::new();
    let mut reports = [SmsStatusReport::default(); 100];
    let mut count = 0;
    let mut told = false;
    let mut rest = 0..0;
    for number in 1..u64::MAX {
        let Some(after) = next_line(&mut reader, &mut input, &mut line, rest)? else {
            break;
        };
        rest = after;
        match report_of(&line) {
            Ok(report) => {
                if let Some(place) = reports.get_mut(count) {
                    *place = report;
                }
                count += 1;
            }
            Err(against) => {
                tell(rt, number, against, out)?;
                told = true;
            }
        }
    }
    Ok(Shift {
        reports,
        count,
        told,
    })
}

// Prints the page of the status reports on standard input, a line each; only what is told of other lines, if there are
// any.
pub fn print_page<R: Input + Print>(rt: &R) -> io::Result<()> {
    let mut out = Output::new();
    let shift = read_shift(rt, &mut out)?;
    let mut lent = [0u8; 3939];
    match tpdu::shift_page(shift.held(), &mut lent) {
        Err(why) => tell_refused(rt, why, &mut out),
        Ok(_) if shift.told => Ok(()),
        Ok(n) => rt.write_all(first(&lent, n)),
    }
}
