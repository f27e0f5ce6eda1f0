// The store that the caller lends for the parts of concatenated short messages: its slots, what stands in them, and what is shown of a message.
#![tactic(auto)]

ghost use Rattle.std.specs.Prelude.{◌≡◌, [], ◌+◌, ◌<◌, ◌≤◌, length};
ghost use Rattle.octets.specs.Held.{holding};
ghost use Rattle.octets.specs.Lent.{Wrote};
ghost use Rattle.coding.specs.Coding.{data_octets};
ghost use Rattle.message_store.specs.Part.{text_after, octets_after, shown_in};
ghost use Rattle.message_store.specs.Store.{begins, has_key, is_open as isOpenSlot, slot_fits, store_octets, Slots, part_at as partAt, slot_with, slot_there, free_slot, fits, reference_octets, key_octets, opened_with, with_part, message_in, missing_of, shown_of};

use address::writing::Number;
use coding::UserDataCoding;
use octets::Held;
use part_number::Reference;

// ---- slots

// The octets of a store: 16 slots.
pub const STORE_OCTETS: usize = 37696;

// A slot: specs/Store.antt says what stands where.
pub const SLOT_OCTETS: usize = 2356;

pub type Slot = [u8; SLOT_OCTETS];

// Where a slot says that it is open, and where the coding scheme of its message stands.
pub const OPEN: usize = 0;

pub const CODING: usize = 1;

// Where the key of a slot starts, and in it the two octets that are the length of the address's text.
const KEY: usize = 10;

const TEXT_LENGTH: usize = 16;

// Where the part with a number from 1 to 8 starts: TP-UDL, then the user data.
pub fn part_at(number: u8) -> usize
    ensures { result ≡ partAt number }
{
    52 + number as usize * 256
}

// The octets stand at the start of others, which are as many at least. By `==`: with `starts_with` here too, accepting a
// part takes 30% longer, since the search for its slot then calls it 16 times.
pub fn all_same(s: &[u8], octets: &[u8]) -> bool
    requires { length octets.now ≤ length s.now }
    ensures { result ≡ begins octets.now s.now }
{
    octets == &s[..octets.len()]
}

fn is_open(slot: &Slot) -> bool
    ensures { result ≡ isOpenSlot slot.now }
{
    slot[OPEN] != 0
}

// The length fields of an open slot, of the address and of the parts, pass no array.
#[tactic(auto, unfolding(crate::specs::Store::slot_fits))]
fn fits_slot(slot: &Slot) -> bool
    ensures { result ≡ slot_fits slot.now }
{
    let length = u16::from_be_bytes([slot[TEXT_LENGTH], slot[TEXT_LENGTH + 1]]);
    !is_open(slot) || (length <= 290) & (slot[KEY] <= 8)
}

#[tactic(auto, unfolding(crate::specs::Store::has_key))]
fn has_key(slot: &Slot, key: &[u8]) -> bool
    ensures { result ≡ has_key key.now slot.now }
{
    is_open(slot) && slot[KEY..].starts_with(key)
}

// The slots of a store.
fn slots_of(store: &[u8]) -> &[Slot]
    requires { store_octets ≤ length store.now }
    ensures { Slots store.now result.now }
{
    let (slots, _) = store[..STORE_OCTETS].as_chunks();
    slots
}

// The slot of a message; none where it is not open.
pub fn find_message(store: &[u8], key: &[u8]) -> Option<usize>
    requires { store_octets ≤ length store.now }
    ensures { result ≡ slot_there (slot_with key.now store.now) }
{
    slots_of(store).iter().position(|slot| has_key(slot, key))
}

// A slot where no message is open; none where there is none.
pub fn find_free(store: &[u8]) -> Option<usize>
    requires { store_octets ≤ length store.now }
    ensures { result ≡ slot_there (free_slot store.now) }
{
    slots_of(store).iter().position(|slot| !is_open(slot))
}

// The store is long enough, and no length field in it passes its array.
pub fn fits_store(store: &[u8]) -> bool
    ensures { result ≡ fits store.now }
{
    store.len() >= STORE_OCTETS && slots_of(store).iter().all(fits_slot)
}

// The numbers from 1 to `total` that a slot does not hold.
pub fn missing_in(slot: &Slot, total: u8) -> Held<8>
    requires { total ≤ 8 }
    ensures { result ≡ holding 8 (missing_of (message_in total slot.now)) }
{
    let mut octets = [0u8; 8];
    let mut length = 0;
    for n in 1..total + 1 {
        if slot[n as usize + 1] == 0 {
            octets[length] = n;
            length += 1;
        }
    }
    Held { octets, length }
}

// Stores a part in a slot.
pub fn put_part(slot: &mut Slot, number: u8, udl: u8, data: &[u8])
    requires { (number ≤ 8) × (length «data».now ≤ 255) }
    ensures { slot.new ≡ with_part number (record { udl = udl; octets = «data».now }) slot.old }
{
    let at = part_at(number);
    slot[1 + number as usize] = 1;
    slot[at] = udl;
    octets::put_octets(slot, at + 1, data);
}

// Opens a slot for a message.
pub fn open_slot(slot: &mut Slot, dcs: u8, key: &[u8])
    requires { length key.now ≤ 298 }
    ensures { slot.new ≡ opened_with key.now dcs slot.old }
{
    slot[OPEN] = 1;
    slot[CODING] = dcs;
    let none = [0u8; 8];
    octets::put_octets(slot, 2, &none);
    octets::put_octets(slot, KEY, key);
}

// ---- keys

fn reference_octets(reference: Reference) -> [u8; 3]
    ensures { result ≡ reference_octets reference }
{
    match reference {
        Reference::Eight(r) => [8, 0, r],
        Reference::Sixteen(r) => {
            let [high, low] = r.to_be_bytes();
            [16, high, low]
        }
    }
}

// The octets of a key.
pub fn key_of(number: Number<'_>, reference: Reference, total: u8) -> Held<298>
    requires { length number.text.now ≤ 290 }
    ensures { result ≡ holding 298 (key_octets (record { ton = number.entry.ton; npi = number.entry.npi; text = number.entry.text.now; reference = reference; total = total })) }
{
    let [width, high, low] = reference_octets(reference);
    let [n_high, n_low] = (number.text.len() as u16).to_be_bytes();
    let head = [
        total, width, high, low, number.ton, number.npi, n_high, n_low,
    ];
    let mut octets = [0u8; 298];
    let at = octets::put_octets(&mut octets, 0, &head);
    let length = octets::put_octets(&mut octets, at, number.text);
    Held { octets, length }
}

// ---- what is shown

// Puts the text after a header from `at` on; the place after it.
fn put_text(shown: &mut [u8], at: usize, udl: u8, data: &[u8]) -> usize
    requires { (at + 510 ≤ length shown.old) × (length «data».now ≡ data_octets UserDataCoding.Gsm7Bit udl) }
    ensures { Wrote at (text_after (record { udl = udl; octets = «data».now })) shown.old result shown.new }
{
    let h = user_data_header::header_octets(data);
    let in_header = septets::header_septets(h);
    let septets = udl as usize;
    if septets < in_header {
        return at;
    }
    let put = gsm7::decode::unpack_septets(
        &data[h..],
        septets::fill_bits(h),
        septets - in_header,
        shown,
        at,
    );
    put.end
}

// Puts the octets after a header from `at` on; the place after them.
fn put_after(shown: &mut [u8], at: usize, udl: u8, data: &[u8]) -> usize
    requires { (at + 510 ≤ length shown.old) × (length «data».now ≤ 255) }
    ensures { Wrote at (octets_after (record { udl = udl; octets = «data».now })) shown.old result shown.new }
{
    let h = user_data_header::header_octets(data);
    if data.len() < h {
        return at;
    }
    octets::put_octets(shown, at, &data[h..])
}

// Puts what is shown of a part from `at` on; the place after it.
#[tactic(auto, using(coding::proofs::Laws::data_at_most), unfolding(crate::specs::Part::shown_in))]
fn put_shown(shown: &mut [u8], at: usize, coding: UserDataCoding, udl: u8, data: &[u8]) -> usize
    requires { (at + 510 ≤ length shown.old) × (length «data».now ≡ data_octets coding udl) }
    ensures { Wrote at (shown_in coding (record { udl = udl; octets = «data».now })) shown.old result shown.new }
{
    match coding {
        UserDataCoding::Gsm7Bit => put_text(shown, at, udl, data),
        UserDataCoding::EightBit | UserDataCoding::Ucs2 | UserDataCoding::Compressed => {
            put_after(shown, at, udl, data)
        }
    }
}

// Puts what is shown of the parts of a whole message, one after the other; how many octets that is.
pub fn put_parts(shown: &mut [u8], slot: &Slot, total: u8) -> usize
    requires { (total ≤ 8) × (4080 ≤ length shown.old) × (missing_of (message_in total slot.now) ≡ []) }
    ensures { Wrote 0 (shown_of (message_in total slot.now)) shown.old result shown.new × (result ≤ 4080) }
{
    let coding = coding::user_data_coding(slot[CODING]);
    let mut at = 0;
    let (blocks, _) = slot[part_at(1)..].as_chunks::<256>();
    for block in &blocks[..total as usize] {
        let udl = block[0];
        let octets = coding::user_data_octets(coding, udl);
        at = put_shown(shown, at, coding, udl, &block[1..1 + octets]);
    }
    at
}
