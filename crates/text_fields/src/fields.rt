// The fields of a line, which stand between spaces.
ghost use Rattle.std.specs.Prelude.{length};
ghost use Rattle.std.specs.Iterator.{at_most};

use crate::slices::find;

// The fields of what is left of a line, from the left.
#[derive(Drop)]
pub struct Fields<'a> {
    rest: &'a [u8],
}

impl<'a> Iterator for Fields<'a> {
    type Item = &'a [u8];

    ghost remaining = { λ f. at_most (length f.rest.now) };

    fn next(&mut self) -> Option<&'a [u8]> {
        let line = self.rest;
        let start = line.iter().position(|c| *c != b' ')?;
        let end = find(line, start + 1, b' ').unwrap_or(line.len());
        self.rest = &line[end..];
        Some(&line[start..end])
    }
}

impl<'a> Fields<'a> {
    pub fn of(line: &'a [u8]) -> Self {
        Fields { rest: line }
    }
}

// Field n of a line, counted from 0.
pub fn field(line: &[u8], n: usize) -> Option<&[u8]> {
    Fields::of(line).nth(n)
}
