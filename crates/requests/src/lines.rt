// The lines of standard input, each held until it ends and then answered. Answers are written out before more is read,
// so that another program can ask and wait for the answer.
use crate::request::{Session, answer};
use output::Output;
use request_line::reasons::{Reason, put_bad};
use std::io;
use std::io::Read;
use text_fields::slices::first;
use wording::refusals::Audience;

// The line that is held. The octets of one that is too long are counted, and no longer held.
#[derive(Clone, Copy)]
pub struct Line {
    octets: [u8; 8192],
    length: usize,
}

impl Line {
    pub fn new() -> Self {
        Line {
            octets: [0u8; 8192],
            length: 0,
        }
    }

    pub fn is_empty(&self) -> bool {
        self.length == 0
    }

    pub fn clear(&mut self) {
        self.length = 0;
    }

    pub fn add(&mut self, octets: &[u8]) {
        let end = self.length.saturating_add(octets.len());
        if let Some(room) = self.octets.get_mut(self.length..end) {
            room.copy_from_slice(octets);
        }
        self.length = end;
    }

    // What is held, unless the line is too long.
    pub fn held(&self) -> Result<&[u8], Reason> {
        self.octets.get(..self.length).ok_or(Reason::LineTooLong)
    }

    // Takes away the CR of its end.
    pub fn trim_cr(&mut self) {
        if let Ok([line @ .., b'\r']) = self.held() {
            self.length = line.len();
        }
    }
}

// The output is written out once it has this many octets: so 16,384 are free for each answer, more than any has. (The
// longest is that of `parts`, some 15,200.)
const MOST_HELD: usize = 49153;

// Writes the answers out.
pub fn write_out<R: Print>(rt: &R, out: &mut Output) -> io::Result<()> {
    rt.write_all(out.as_slice())?;
    out.clear();
    Ok(())
}

// Answers the line held, and writes the answers out if the next might not fit.
fn answer_line<R: Print>(rt: &R, line: &Line, session: &mut Session) -> io::Result<()> {
    match line.held() {
        Ok(octets) => answer(octets, session),
        Err(reason) => put_bad(&mut session.out, reason),
    }
    session.out.put(b"\n");
    if session.out.len() < MOST_HELD {
        return Ok(());
    }
    write_out(rt, &mut session.out)
}

// Answers the lines that end in these octets, writes the answers out, and holds the rest. A line has ended before each
// piece but the first.
fn answer_octets<R: Print>(
    rt: &R,
    octets: &[u8],
    line: &mut Line,
    session: &mut Session,
) -> io::Result<()> {
    for (i, piece) in octets.split(|c| *c == b'\n').enumerate() {
        if 0 < i {
            line.trim_cr();
            answer_line(rt, line, session)?;
            line.clear();
        }
        line.add(piece);
    }
    write_out(rt, &mut session.out)
}

// What is read at once.
pub type Block = [u8; 65536];

// Reads and answers to the end of the input, and holds its last line. No input has as many turns as are counted.
fn answer_all<R: Print, I: Read>(
    rt: &R,
    reader: &mut I,
    input: &mut Block,
    line: &mut Line,
    session: &mut Session,
) -> io::Result<()> {
    for _ in 0..u64::MAX {
        let n = reader.read(input)?;
        if n == 0 {
            return Ok(());
        }
        answer_octets(rt, first(input, n), line, session)?;
    }
    Ok(())
}

// Answers each line of standard input, and a last line that has no end.
pub fn answer_requests<R: Input + Print>(rt: &R, audience: Audience) -> io::Result<()> {
    let mut reader = rt.reader();
    let mut input = [0u8; 65536];
    let mut line = Line::new();
    let mut session = Session::new(audience);
    answer_all(rt, &mut reader, &mut input, &mut line, &mut session)?;
    if line.is_empty() {
        return Ok(());
    }
    answer_line(rt, &line, &mut session)?;
    write_out(rt, &mut session.out)
}
