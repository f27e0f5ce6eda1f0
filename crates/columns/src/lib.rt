// Octet strings rearranged by column, and back.
#![tactic(auto)]

ghost use Rattle.std.specs.Prelude.{◌≡◌, true, List, ℕ, ◌+◌, ◌^◌, ◌<◌, ◌≤◌, length, get_or, drop, Err};
ghost use Rattle.std.proofs.Math.Option.{some};
ghost use Rattle.std.proofs.lemmas.List.Edits.{sets};
ghost use Rattle.octets.specs.Lent.{lend, Wrote};
ghost use Rattle.columns.specs.Numbers.{groups};
ghost use Rattle.columns.specs.Blocks.{strings_in, joined, sum, allowed, columns, numbers, dealt, lengths_at};
ghost use Rattle.columns.specs.Answers.{writing, reading, lend_both};
ghost use Rattle.columns.specs.Internal.{longer_than, sizes_of, NumberAs, LengthsAs, Raised, SummedUp, Starts, picked, scattered};

use octets::Refusal;

// What a block held: how many strings, and how many octets they have together.
#[derive(Clone, Copy, Debug, Default, PartialEq, Eq)]
pub struct Strings {
    pub strings: usize,
    pub octets: usize,
}

// The lengths of strings that a block can hold: at most 1,000, of at most 255 octets.
#[derive(Clone, Copy)]
struct Lengths<'a> {
    each: &'a [usize],
    ghost few: { allowed each.now ≡ true },
}

// How many groups a number of at most two has.
fn groups_of(n: usize) -> usize
    requires { n < 16384 }
    ensures { result ≡ length (groups n) }
{
    if n < 128 { 1 } else { 2 }
}

// How many octets strings of these lengths have together, and how many the lengths take in a block that can hold them.
fn sizes_of(lengths: &[usize]) -> Result<(usize, usize), Refusal>
    ensures { result ≡ sizes_of lengths.now }
{
    if 1000 < lengths.len() {
        return Err(Refusal::StringsTooLarge);
    }
    let mut octets = 0;
    let mut taken = 0;
    for &n in lengths {
        if 255 < n {
            return Err(Refusal::StringsTooLarge);
        }
        octets += n;
        taken += groups_of(n);
    }
    Ok((octets, taken))
}

// Writes a number's groups from `at` on; the place after them.
fn put_number(out: &mut [u8], at: usize, n: usize) -> usize
    requires { (n < 16384) × (at + length (groups n) ≤ length out.old) }
    ensures { Wrote at (groups n) out.old result out.new }
{
    if n < 128 {
        return octets::put_octet(out, at, n as u8);
    }
    let next = octets::put_octet(out, at, (128 + n % 128) as u8);
    octets::put_octet(out, next, (n / 128) as u8)
}

// Writes the lengths from `at` on; the place after them.
fn put_numbers(out: &mut [u8], at: usize, lengths: Lengths<'_>) -> usize
    requires { at + length (numbers lengths.each.now) ≤ length out.old }
    ensures { Wrote at (numbers lengths.entry.each.now) out.old result out.new }
{
    let mut place = at;
    for &n in lengths.each {
        place = put_number(out, place, n);
    }
    place
}

// Raises the first `n` places by one.
fn raise(places: &mut [usize; 255], n: usize)
    requires { (n ≤ 255) × ((k : ℕ) → k < n → get_or places.old k 0 + 1 < 2 ^ 64) }
    ensures { Raised n places.old places.new }
{
    for place in &mut places[..n] {
        *place += 1;
    }
}

// How many octets each column has. Here and below as in header_elements, whose counts are `u8`: one generic function would
// need a trait of additions that don't overflow.
fn count_octets(lengths: Lengths<'_>, counts: &mut [usize; 255])
    requires { (k : ℕ) → get_or counts.old k 0 ≡ 0 }
    ensures { (k : ℕ) → get_or counts.new k 0 ≡ longer_than k lengths.entry.each.now }
{
    for &n in lengths.each {
        raise(counts, n);
    }
}

// Puts in each count's place where its column starts, the first at `body`.
fn sum_up(counts: &mut [usize; 255], body: usize)
    requires { body + sum counts.old < 2 ^ 64 }
    ensures { SummedUp body counts.old counts.new }
{
    let mut place = body;
    for start in counts {
        let count = *start;
        *start = place;
        place += count;
    }
}

// Where each column starts, the first at `body`.
fn column_starts(lengths: Lengths<'_>, body: usize) -> [usize; 255]
    requires { body + sum lengths.each.now < 2 ^ 64 }
    ensures { Starts lengths.entry.each.now body 0 result }
{
    let mut starts = [0usize; 255];
    count_octets(lengths, &mut starts);
    sum_up(&mut starts, body);
    starts
}

// Writes a string's octets, each to the place of its column.
fn put_string(octets: &[u8], at: usize, n: usize, places: &[usize; 255], out: &mut [u8])
    requires { (n ≤ 255) × (at + n ≤ length octets.now) × ((k : ℕ) → k < n → get_or places.now k 0 < length out.old) }
    ensures { out.new ≡ scattered n places.now (drop at octets.now) out.old }
{
    // By the index: a zip of places and octets takes 31% longer.
    for (k, place) in places[..n].iter().enumerate() {
        out[*place] = octets[at + k];
    }
}

// Writes the columns of strings that lie end to end, from `body` on; the place after them.
fn put_strings(octets: &[u8], lengths: Lengths<'_>, out: &mut [u8], body: usize) -> usize
    requires { (sum lengths.each.now ≤ length octets.now) × (body + sum lengths.each.now ≤ length out.old) }
    ensures { Wrote body (columns 255 (strings_in lengths.entry.each.now octets.now)) out.old result out.new }
{
    let mut places = column_starts(lengths, body);
    let mut at = 0;
    for &n in lengths.each {
        put_string(octets, at, n, &places, out);
        raise(&mut places, n);
        at += n;
    }
    body + at
}

// The block of strings that lie end to end; octets after them are not looked at.
pub fn to_columns(octets: &[u8], lengths: &[usize], out: &mut [u8]) -> Result<usize, Refusal>
    ensures { (result, out.new) ≡ lend (writing octets.now lengths.now) out.old }
{
    let (total, taken) = sizes_of(lengths)?;
    if octets.len() < total {
        return Err(Refusal::LengthTooLarge);
    }
    if out.len() < groups_of(lengths.len()) + taken + total {
        return Err(Refusal::OutputTooShort);
    }
    let next = put_number(out, 0, lengths.len());
    let lengths = Lengths { each: lengths };
    let body = put_numbers(out, next, lengths);
    Ok(put_strings(octets, lengths, out, body))
}

// The number that starts at `at`, and the place after it; none where there is no number of at most two groups, which is
// too large for any place of a block.
fn number_at(block: &[u8], at: usize) -> Option<(usize, usize)>
    ensures { NumberAs block.now at result }
{
    let first = *block.get(at)? as usize;
    if first < 128 {
        return Some((first, at + 1));
    }
    let second = *block.get(at + 1)? as usize;
    if second == 0 {
        return None;
    }
    if 127 < second {
        return None;
    }
    Some((second * 128 + (first - 128), at + 2))
}

// The lengths of `count` strings from `at` on, added up, and the place after them; none where they are not all there.
fn measure(block: &[u8], at: usize, count: usize) -> Option<(usize, usize)>
    requires { (count ≤ 1000) × (at ≤ length block.now) }
    ensures { LengthsAs block.now at count result }
{
    let mut total = 0;
    let mut place = at;
    for _ in 0..count {
        let (n, next) = number_at(block, place)?;
        if 255 < n {
            return None;
        }
        total += n;
        place = next;
    }
    Some((total, place))
}

// Stores the lengths of `count` strings from `at` on at the list's start.
fn put_lengths(block: &[u8], at: usize, count: usize, lengths: &mut [usize])
    requires { count ≤ length lengths.old }
    ensures { (ns rest : List ℕ) → lengths_at count (drop at block.now) ≡ some (ns, rest) → lengths.new ≡ sets lengths.old 0 ns }
{
    let mut place = at;
    for length in &mut lengths[..count] {
        let Some((n, next)) = number_at(block, place) else {
            return;
        };
        *length = n;
        place = next;
    }
}

// Writes a string from `at` on, each octet from the place of its column; the place after it.
fn take_string(block: &[u8], places: &[usize; 255], n: usize, octets: &mut [u8], at: usize) -> usize
    requires { (n ≤ 255) × (at + n ≤ length octets.old) × ((k : ℕ) → k < n → get_or places.now k 0 < length block.now) }
    ensures { Wrote at (picked n places.now block.now) octets.old result octets.new }
{
    // By the index: nothing can be proved of what a zip of iter_mut wrote.
    for (k, place) in places[..n].iter().enumerate() {
        octets[at + k] = block[*place];
    }
    at + n
}

// Writes the strings whose columns start at `body`, end to end; the place after them.
fn take_strings(block: &[u8], body: usize, lengths: Lengths<'_>, octets: &mut [u8]) -> usize
    requires { (body + sum lengths.each.now ≡ length block.now) × (sum lengths.each.now ≤ length octets.old) }
    ensures { Wrote 0 (joined (dealt 255 lengths.entry.each.now (drop body block.now))) octets.old result octets.new }
{
    let mut places = column_starts(lengths, body);
    let mut at = 0;
    for &n in lengths.each {
        at = take_string(block, &places, n, octets, at);
        raise(&mut places, n);
    }
    at
}

// The strings of a block: their octets end to end, and their lengths.
pub fn from_columns(
    block: &[u8],
    octets: &mut [u8],
    lengths: &mut [usize],
) -> Result<Strings, Refusal>
    ensures { (result, octets.new, lengths.new) ≡ lend_both (reading block.now) octets.old lengths.old }
{
    let (count, at) = number_at(block, 0).ok_or(Refusal::BlockNotWhole)?;
    if 1000 < count {
        return Err(Refusal::BlockNotWhole);
    }
    let (total, body) = measure(block, at, count).ok_or(Refusal::BlockNotWhole)?;
    if block.len() - body != total {
        return Err(Refusal::BlockNotWhole);
    }
    if octets.len() < total {
        return Err(Refusal::OutputTooShort);
    }
    if lengths.len() < count {
        return Err(Refusal::OutputTooShort);
    }
    put_lengths(block, at, count, lengths);
    let held = Lengths {
        each: &lengths[..count],
    };
    take_strings(block, body, held, octets);
    Ok(Strings {
        strings: count,
        octets: total,
    })
}
