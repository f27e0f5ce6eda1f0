// The output: octets and numbers that are appended, and held until they are written out.
#![tactic(auto)]

pub mod hexadecimal;

ghost use Rattle.std.specs.Prelude.{◌≡◌, ℕ, ◌≤◌, List, [], length, take, Ok};
ghost use Rattle.octets.specs.Decimal.{decimal_text};
ghost use Rattle.output.specs.Output.{appended};

use std::fmt;
use std::marker::Model;

// How many octets an output holds at most.
pub const SIZE: usize = 65536;

// What a program has answered and not yet written out.
#[derive(Clone, Copy)]
pub struct Output {
    octets: [u8; SIZE],
    length: usize,
}

impl Model for Output {
    ghost use Rattle.std.specs.Prelude.{◌≡◌, ◌≤◌, ℕ, List, length as count, take};
    ghost use Rattle.std.proofs.Common.{length-take-le};
    ghost use Rattle.octets.specs.Arrays.{pad};

    ghost Value = { List ℕ };

    ghost view = { λ o. take o.length o.octets };

    // Zeros follow what is held, so that the list gives the fields back and an output can be copied.
    ghost invariant = { λ o. (o.length ≤ count o.octets) × (pad 65536 (take o.length o.octets) ≡ o.octets) };

    ghost inverse = { λ held. record { octets = pad 65536 held; length = count held } };

    ghost inverse_ok = { λ o h i. record { octets = h.1 i; length = length-take-le o.length o.octets h.0 i } };
}

impl Output {
    pub fn new() -> Self
        ensures { result ≡ [] }
    {
        Output {
            octets: [0; SIZE],
            length: 0,
        }
    }

    pub fn len(&self) -> usize
        ensures { result ≡ length self.now }
    {
        self.length
    }

    pub fn as_slice(&self) -> &[u8]
        ensures { result.now ≡ self.now }
    {
        &self.octets[..self.length]
    }

    pub fn clear(&mut self)
        ensures { self.new ≡ [] }
    {
        self.octets[..self.length].fill(0);
        self.length = 0;
    }

    // Appends octets. Those that do not fit are left out, all of them.
    pub fn put(&mut self, octets: &[u8])
        ensures { self.new ≡ appended 65536 octets.now self.old }
    {
        if octets.len() <= SIZE - self.length {
            self.length = octets::put_octets(&mut self.octets, self.length, octets);
        }
    }

    pub fn put_text(&mut self, text: &str)
        ensures { self.new ≡ appended 65536 text.now self.old }
    {
        self.put(text.as_bytes());
    }

    // A number in decimal.
    pub fn put_decimal(&mut self, n: u64)
        ensures { self.new ≡ appended 65536 (decimal_text n) self.old }
    {
        self.put_text(itoa::Buffer::new().format(n));
    }
}

// So that `write!` appends to an output; text that does not fit is left out, and that is no error.
impl fmt::Write for Output {
    ghost write_str_gives = { λ before text after. after ≡ appended 65536 text before };

    fn write_str(&mut self, text: &str) -> fmt::Result
        ensures ok { result ≡ Ok tt }
        ensures text { self.new ≡ appended 65536 text.now self.old }
    {
        self.put_text(text);
        Ok(())
    }
}
