// What the whole codec shares: the refusals, arrays with a length, writing to a lent buffer, and reading at a place.
#![tactic(auto)]

ghost use Rattle.std.specs.Prelude.{◌≡◌, ◌+◌, ◌≤◌, length, leb, [], ◌∷◌, ok_or, Some};
ghost use Rattle.octets.specs.declared.Refusal.TheVariants.{OctetsEnd};
ghost use Rattle.octets.specs.Choice.{flag as flagWeight, length_if};
ghost use Rattle.octets.specs.Refusals.{refusal_number, refused_text};
ghost use Rattle.octets.specs.Arrays.{pad};
ghost use Rattle.octets.specs.Held.{holding, filled};
ghost use Rattle.octets.specs.Lent.{Wrote};
ghost use Rattle.octets.specs.Places.{octet_at, span_at};

use std::fmt;

// Why an input is not taken, with the number that document 01 gives it.
#[derive(Clone, Copy, Debug, PartialEq, Eq)]
pub enum Refusal {
    LengthTooLarge = 1,
    OctetsEnd = 2,
    WrongMessageType = 3,
    UdhiTooLarge = 4,
    ValidityFormatDisagrees = 5,
    NoDestination = 6,
    UserDataLengthDisagrees = 7,
    UserDataTooLong = 8,
    NumberTypeOrPlanTooLarge = 9,
    NotInAlphabet = 10,
    AddressTooLong = 11,
    NotATime = 12,
    IndicatorDisagrees = 13,
    IndicatorExtended = 14,
    UserDataWithoutLength = 15,
    ParametersWithoutIndicator = 16,
    HeaderNotWhole = 17,
    HeaderPassesCount = 18,
    TooFewOctets = 19,
    CalendarOutOfRange = 20,
    ZoneOutOfRange = 21,
    TooManySeptets = 22,
    OutputTooShort = 23,
    ElementPassesHeader = 24,
    ElementsTooLong = 25,
    TooManyParts = 26,
    StoreFull = 27,
    NotAPart = 28,
    OutcomeDisagrees = 29,
    OddOctets = 30,
    InNeitherTable = 31,
    AlphanumericRelayAddress = 32,
    TooManyRecords = 33,
    RecipientNotPrintable = 34,
    StringsTooLarge = 35,
    BlockNotWhole = 36,
}

impl Refusal {
    // The number that a log line and a caller in another language see.
    pub fn number(self) -> u8
        ensures { result ≡ refusal_number self }
    {
        self as u8
    }
}

// As every program says it: `refused 2`.
impl fmt::Display for Refusal {
    ghost output = { λ r. Some (refused_text r) };

    #[tactic(auto, unfolding(crate::specs::Texts::codes, crate::specs::Refusals::refused_text))]
    fn fmt<W: fmt::Write>(&self, f: &mut fmt::Formatter<W>) -> fmt::Result {
        let number = self.number();
        write!(f, "refused {number}")
    }
}

// Writes octets from `at` on; the place after them. Output and place are two parameters, here and in every function that
// writes: with a struct of both each contract would say besides that the output is still the one that was lent.
pub fn put_octets(out: &mut [u8], at: usize, octets: &[u8]) -> usize
    requires { at + length octets.now ≤ length out.old }
    ensures { Wrote at octets.now out.old result out.new }
{
    // By place: of what a zip of `iter_mut` wrote nothing can be proved, and `copy_from_slice` calls the C library's `memmove`.
    for (i, octet) in octets.iter().enumerate() {
        out[at + i] = *octet;
    }
    at + octets.len()
}

// Writes one octet at `at`; the place after it.
pub fn put_octet(out: &mut [u8], at: usize, octet: u8) -> usize
    requires { at + 1 ≤ length out.old }
    ensures { Wrote at (octet ∷ []) out.old result out.new }
{
    out[at] = octet;
    at + 1
}

// Octets in an array of `N`, and how many of them count: there is no heap. A length past the array is what refusal 1 is of,
// so a length may be too large. The array stands last: a record that holds one is copied twice less on its way out.
#[derive(Clone, Copy, Debug)]
pub struct Held<const N: usize> {
    pub length: usize,
    pub octets: [u8; N],
}

// No octets.
impl<const N: usize> Default for Held<N> {
    ghost is_default = { λ h. h ≡ holding N [] };

    fn default() -> Self {
        Held {
            length: 0,
            octets: [0; N],
        }
    }
}

impl<const N: usize> Held<N> {
    // The octets that count.
    pub fn as_slice(&self) -> &[u8]
        ensures { result.now ≡ filled self.now }
    {
        &self.octets[..self.length.min(N)]
    }

    // Whether the length keeps within the array.
    pub fn fits(&self) -> bool
        ensures { result ≡ leb self.now.length N }
    {
        self.length <= N
    }
}

// Octets, with zeros after them.
fn padded<const N: usize>(octets: &[u8]) -> [u8; N]
    requires { length octets.now ≤ N }
    ensures { result ≡ pad N octets.now }
{
    let mut array = [0; N];
    put_octets(&mut array, 0, octets);
    array
}

// Octets as a record holds them.
pub fn hold<const N: usize>(octets: &[u8]) -> Held<N>
    requires { length octets.now ≤ N }
    ensures { result ≡ holding N octets.now }
{
    Held {
        length: octets.len(),
        octets: padded(octets),
    }
}

// A flag as a bit of an octet.
pub fn flag(on: bool, weight: u8) -> u8
    ensures { (result ≡ flagWeight on weight) × (result ≤ weight) }
{
    if on { weight } else { 0 }
}

// A length that counts: that of what is absent doesn't. Beside `flag`, which is of octets: one function for both types would
// need a trait that names their zero.
pub fn length_if(there: bool, length: usize) -> usize
    ensures { result ≡ length_if there length }
{
    if there { length } else { 0 }
}

// A place in a message; every read hands back the next one.
#[derive(Clone, Copy, Debug, PartialEq, Eq)]
pub struct Place {
    pub at: usize,
}

impl Place {
    // One octet, and the place after it; none where the octets end.
    pub fn octet(self, data: &[u8]) -> Option<(u8, Place)>
        ensures { ok_or result OctetsEnd ≡ octet_at «data».now self }
    {
        let at = self.at;
        if at < data.len() {
            Some((data[at], Place { at: at + 1 }))
        } else {
            None
        }
    }

    // Where `n` octets start, and the place after them; none where they are not all there. Zero octets are present at every place, even past the end.
    pub fn span(self, data: &[u8], n: usize) -> Option<(usize, Place)>
        ensures { ok_or result OctetsEnd ≡ span_at «data».now self n }
    {
        let at = self.at;
        if n <= data.len().saturating_sub(at) {
            Some((at, Place { at: at + n }))
        } else {
            None
        }
    }
}
