// Septets in octets (TS 23.038 §6.1.2.1.1).
#![tactic(auto)]

ghost use Rattle.std.specs.Prelude.{◌≡◌, ℕ, ◌+◌, ◌*◌, ◌^◌, ◌<◌, ◌≤◌, length, get_or, take, drop};
ghost use Rattle.octets.specs.Lent.{Wrote};
ghost use Rattle.septets.specs.Septets.{number_of, lowest_digits, Digits, bit_place, bit_of, place_after, septet_from, in_window, octet_count, packed_septets, header_septets, fill_bits};

// The octet at `at`, 0 past the end.
pub fn octet_or_zero(octets: &[u8], at: usize) -> u16
    ensures { result ≡ get_or octets.now at 0 }
{
    octets.get(at).map_or(0, |octet| *octet as u16)
}

// A place in the bits of octets: the octet, and the bit in it. Both bounds stand in the contracts: a type could hold the second
// alone, since a step leaves the first.
#[derive(Clone, Copy, Debug, PartialEq, Eq)]
pub struct BitPlace {
    pub octet: usize,
    pub shift: usize,
}

impl BitPlace {
    // The place seven bits on.
    pub fn next(self) -> BitPlace
        requires { (self.octet ≤ 255) × (self.shift < 8) }
        ensures { result ≡ bit_place (bit_of self + 7) }
    {
        let octet = self.octet;
        let following = octet + 1;
        let shift = self.shift;
        if shift == 0 {
            return BitPlace { octet, shift: 7 };
        }
        BitPlace {
            octet: following,
            shift: shift - 1,
        }
    }

    // The place four septets on.
    pub fn after_four(self) -> BitPlace
        requires { (self.octet ≤ 255) × (self.shift < 8) }
        ensures { result ≡ place_after self 4 }
    {
        let octet = self.octet;
        let shift = self.shift;
        if shift < 4 {
            return BitPlace {
                octet: octet + 3,
                shift: shift + 4,
            };
        }
        BitPlace {
            octet: octet + 4,
            shift: shift - 4,
        }
    }

    // A window of at least 57 bits from the place on, which has eight septets.
    pub fn window(self, octets: &[u8]) -> u64
        requires { (self.octet ≤ 255) × (self.shift < 8) }
        ensures { (k : ℕ) → k < 8 → in_window result k ≡ septet_from octets.now (bit_of (place_after self k)) }
    {
        let at = self.octet;
        let shift = self.shift;
        eight_octets(octets, at) >> shift
    }

    // The septet that starts at the place.
    pub fn septet(self, octets: &[u8]) -> u8
        requires { (self.octet ≤ 255) × (self.shift < 8) }
        ensures { result ≡ septet_from octets.now (bit_of self) }
    {
        septet_in(self.window(octets), 0)
    }
}

// A septet of a window.
pub fn septet_in(window: u64, index: usize) -> u8
    requires { index < 8 }
    ensures { result ≡ in_window window index }
{
    ((window >> (index * 7)) % 128) as u8
}

// The number of at most eight digits of `w` bits, at most eight, the lowest first.
fn number_from(digits: &[u8], w: usize) -> u64
    requires { (w ≤ 8) × (length digits.now ≤ 8) × Digits w digits.now }
    ensures { result ≡ number_of w digits.now }
{
    let mut number = 0;
    for digit in digits.iter().rev() {
        number = (number << w) + *digit as u64;
    }
    number
}

// The number of the eight octets from `at` on, 0 for those past the end.
fn eight_octets(octets: &[u8], at: usize) -> u64
    requires { at ≤ 255 }
    ensures { result ≡ number_of 8 (take 8 (drop at octets.now)) }
{
    let n = octets.len();
    if at + 8 <= n {
        return number_from(&octets[at..at + 8], 8);
    }
    if at < n {
        return number_from(&octets[at..], 8);
    }
    0
}

// The septets that a user-data header of so many octets takes, fill bits included (TS 23.040 §9.2.3.24).
pub fn header_septets(octets: usize) -> usize
    requires { octets ≤ 256 }
    ensures { result ≡ header_septets octets }
{
    (octets * 8 + 6) / 7
}

// The bits between a header of so many octets and the next septet.
pub fn fill_bits(octets: usize) -> usize
    requires { octets ≤ 256 }
    ensures { (result ≡ fill_bits octets) × (result < 7) }
{
    header_septets(octets) * 7 - octets * 8
}

// The octets that so many fill bits and septets take.
pub fn octet_count(fill: usize, septets: usize) -> usize
    requires { (fill < 8) × (septets ≤ 255) }
    ensures { result ≡ octet_count fill septets }
{
    (fill + septets * 7 + 7) / 8
}

// Writes the `n` lowest octets of a number at `at`; the place after them.
fn put_number(out: &mut [u8], at: usize, n: usize, number: u64) -> usize
    requires { (n ≤ 8) × (at + n ≤ length out.old) }
    ensures { Wrote at (lowest_digits 8 n number) out.old result out.new }
{
    octets::put_octets(out, at, &number.to_le_bytes()[..n])
}

// The number of at most eight septets, after `fill` bits that hold `carry`.
fn number_after(septets: &[u8], fill: usize, carry: u64) -> u64
    requires { (length septets.now ≤ 8) × Digits 7 septets.now × (fill < 8) × (carry < 2 ^ fill) }
    ensures { result ≡ number_of 7 septets.now * 2 ^ fill + carry }
{
    (number_from(septets, 7) << fill) + carry
}

// Packs the septets after `fill` zero bits, with zero bits to the octet, from `at` on; the place after them. Eight septets
// fill seven octets; the eighth, which is stored with them, is what is over, and is stored anew with those that follow.
pub fn pack_octets(septets: &[u8], fill: usize, out: &mut [u8], at: usize) -> usize
    requires { (fill < 8) × (length septets.now ≤ 255) × Digits 7 septets.now × (at + octet_count fill (length septets.now) ≤ length out.old) }
    ensures { Wrote at (packed_septets fill septets.now) out.old result out.new }
{
    let mut carry = 0;
    let mut place = at;
    // the last septets, one to eight, stand apart: no octet after theirs is stored
    let (front, last) = septets.split_at(septets.len().saturating_sub(1) / 8 * 8);
    let (eights, _) = front.as_chunks::<8>();
    for eight in eights {
        let window = number_after(eight, fill, carry);
        put_number(out, place, 8, window);
        carry = window >> 56;
        place += 7;
    }
    let window = number_after(last, fill, carry);
    put_number(out, place, octet_count(fill, last.len()), window)
}
