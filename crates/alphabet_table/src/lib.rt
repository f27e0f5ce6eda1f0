// The default alphabet and its extension table (TS 23.038 §6.2.1), a line for each code, for people with phones to test.
#![tactic(auto)]

ghost use Rattle.std.specs.Prelude.{◌≡◌, ◌+◌, ◌≤◌, length, Ok, Err};
ghost use Rattle.octets.specs.Lent.{Wrote, made, lend};
ghost use Rattle.gsm7.specs.Alphabet.{alphabet, extension};
ghost use Rattle.alphabet_table.specs.AlphabetLines.{line_of, septet_lines, escape_lines, alphabet_lines};

use gsm7::decode::{ALPHABET, extension_row};
use octets::Refusal;
use time::hex_digit;

// How many octets the lines take: 128 of eight octets and ten of ten.
pub const ALPHABET_OCTETS: usize = 1124;

// Writes the line of a code and its character at `at`; the place after it.
fn put_line(out: &mut [u8], at: usize, code: u8, character: u16) -> usize
    requires { at + 8 ≤ length out.old }
    ensures { Wrote at (line_of code character) out.old result out.new }
{
    let line = [
        hex_digit(code / 16),
        hex_digit(code % 16),
        b' ',
        hex_digit((character / 4096) as u8),
        hex_digit((character / 256 % 16) as u8),
        hex_digit((character / 16 % 16) as u8),
        hex_digit((character % 16) as u8),
        b'\n',
    ];
    octets::put_octets(out, at, &line)
}

// Writes a line for each septet from the start on; the place after them.
fn put_septets(out: &mut [u8]) -> usize
    requires { 1024 ≤ length out.old }
    ensures { Wrote 0 (septet_lines 0 alphabet) out.old result out.new }
{
    let mut at = 0;
    for (septet, &character) in ALPHABET.iter().enumerate() {
        at = put_line(out, at, septet as u8, character);
    }
    at
}

// Writes a line for each code that follows an escape at `at`; the place after them.
fn put_escapes(out: &mut [u8], at: usize) -> usize
    requires { at + 100 ≤ length out.old }
    ensures { Wrote at (escape_lines extension) out.old result out.new }
{
    let mut next = at;
    for place in 0..10 {
        let row = extension_row(place);
        next = octets::put_octets(out, next, b"1B");
        next = put_line(out, next, row.code, row.character);
    }
    next
}

// Writes a line for each septet and each code that follows an escape to the start of a lent output: of the tables that the text readers use.
pub fn alphabet_lines(out: &mut [u8]) -> Result<usize, Refusal>
    ensures { (result, out.new) ≡ lend (made alphabet_lines (length alphabet_lines)) out.old }
{
    if out.len() < ALPHABET_OCTETS {
        return Err(Refusal::OutputTooShort);
    }
    let at = put_septets(out);
    Ok(put_escapes(out, at))
}
