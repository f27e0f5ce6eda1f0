// Parts of concatenated short messages (TS 23.040 §9.2.3.24.1, §9.2.3.24.8), gathered as they come in a store that the caller lends.
#![tactic(auto)]

ghost use Rattle.std.specs.Prelude.{◌≡◌, ◌≤◌, length, Ok};
ghost use Rattle.layout.specs.Layout.{read_from};
ghost use Rattle.deliver.specs.Layout.{fields};
ghost use Rattle.deliver.specs.Deliver.{delivered};
ghost use Rattle.deliver.specs.Internal.{fields_at, found_says as fieldsSay, Inside};
ghost use Rattle.message_store.specs.Part.{arrival_of};
ghost use Rattle.message_store.specs.Store.{store_octets, opened_with, message_in};
ghost use Rattle.reassembly.specs.Calls.{blank, emptied, told, storing, joining, placing_as, accepting, handing, taking_by, finding_by, dropping_by, arriving};
ghost use Rattle.reassembly.specs.Internal.{slot_found, kept};

use address::SMSAddress;
use deliver::reading::DeliverFields;
pub use message_store::STORE_OCTETS;
use message_store::{CODING, OPEN, SLOT_OCTETS, Slot};
use octets::{Held, Refusal};
use part_number::{PartNumber, Reference};

// A lent output of so many octets is never too short for a message.
pub const MESSAGE_OCTETS: usize = 4080;

// What accepting a part answers: its reference, total and number, and the numbers of its message that are still missing.
#[derive(Clone, Copy, Debug)]
pub struct PartAccepted {
    pub part: PartNumber,
    pub missing: Held<8>,
}

// The blank answer. By hand: an edit plants a wrong body.
impl Default for PartAccepted {
    ghost is_default = { λ a. a ≡ blank };

    #[tactic(auto, using(part_number::proofs::Blank::default_unnumbered), unfolding(crate::specs::Calls::blank))]
    fn default() -> Self {
        PartAccepted {
            part: PartNumber::default(),
            missing: Held::default(),
        }
    }
}

// What taking a message answers: its coding scheme and the number of octets written; or that it is not open, or not whole.
// These two are answers and no refusals: they have no number.
#[derive(Clone, Copy, Debug, PartialEq, Eq)]
pub enum MessageTaken {
    Whole(u8, usize),
    NotOpen,
    NotWhole,
}

// What dropping a message answers; that it was not open is no refusal.
#[derive(Clone, Copy, Debug, PartialEq, Eq)]
pub enum MessageDropped {
    Done,
    NotOpen,
}

// What a part says beside its key and its data.
#[derive(Clone, Copy)]
struct PartFields {
    numbers: PartNumber,
    dcs: u8,
    udl: u8,
}

// ---- a part and its slot

// What is told of a part that its message holds.
fn accepted(slot: &Slot, part: PartNumber) -> PartAccepted
    requires { part.total ≤ 8 }
    ensures { Ok result ≡ told part (message_in part.total slot.now) }
{
    let missing = message_store::missing_in(slot, part.total);
    PartAccepted { part, missing }
}

// The part joins the message that is open in a slot.
fn join(slot: &mut Slot, part: PartFields, data: &[u8]) -> Result<PartAccepted, Refusal>
    requires { (part.numbers.total ≤ 8) × (part.numbers.number ≤ 8) × (length «data».now ≤ 255) }
    ensures { (result, slot.new) ≡ joining part.numbers part.dcs (kept part «data».now) slot.old }
{
    if slot[CODING] != part.dcs {
        return Err(Refusal::NotAPart);
    }
    let n = part.numbers.number;
    if slot[1 + n as usize] == 0 {
        message_store::put_part(slot, n, part.udl, data);
        return Ok(accepted(slot, part.numbers));
    }
    let at = message_store::part_at(n);
    if slot[at] != part.udl {
        return Err(Refusal::NotAPart);
    }
    if !message_store::all_same(&slot[at + 1..at + 256], data) {
        return Err(Refusal::NotAPart);
    }
    Ok(accepted(slot, part.numbers))
}

// The part of a new message is stored in a free slot.
fn begin_message(slot: &mut Slot, key: &[u8], part: PartFields, data: &[u8]) -> PartAccepted
    requires { (length key.now ≤ 298) × (part.numbers.total ≤ 8) × (part.numbers.number ≤ 8) × (length «data».now ≤ 255) }
    ensures { (Ok result, slot.new) ≡ storing part.numbers (kept part «data».now) (opened_with key.now part.dcs slot.old) }
{
    message_store::open_slot(slot, part.dcs, key);
    message_store::put_part(slot, part.numbers.number, part.udl, data);
    accepted(slot, part.numbers)
}

// The part joins its message, or begins a new one.
// The slot is cut out here and in `take_message`: of a function that hands out a chunk of a part, the loan isn't proved.
fn place_part(
    store: &mut [u8],
    key: &[u8],
    part: PartFields,
    data: &[u8],
) -> Result<PartAccepted, Refusal>
    requires { (store_octets ≤ length store.old) × (length key.now ≤ 298) × (part.numbers.total ≤ 8) × (part.numbers.number ≤ 8) × (length «data».now ≤ 255) }
    ensures { (result, store.new) ≡ placing_as key.now part.numbers part.dcs (kept part «data».now) store.old }
{
    if let Some(k) = message_store::find_message(store, key) {
        let (_, from) = store.split_at_mut(k * SLOT_OCTETS);
        return join(from.first_chunk_mut().unwrap(), part, data);
    }
    let Some(free) = message_store::find_free(store) else {
        return Err(Refusal::StoreFull);
    };
    let (_, from) = store.split_at_mut(free * SLOT_OCTETS);
    Ok(begin_message(from.first_chunk_mut().unwrap(), key, part, data))
}

// ---- keys

// The slot of a message, none where it is not open, by its sender's address, reference and total.
#[tactic(auto, using(crate::proofs::Taking::finds_long))]
fn find_by(
    store: &[u8],
    address: SMSAddress,
    reference: Reference,
    total: u8,
) -> Result<Option<usize>, Refusal>
    ensures { result ≡ slot_found (finding_by address reference total store.now) }
{
    if !address.address.fits() {
        return Err(Refusal::LengthTooLarge);
    }
    if !message_store::fits_store(store) {
        return Err(Refusal::LengthTooLarge);
    }
    let key = message_store::key_of(address.number(), reference, total);
    Ok(message_store::find_message(store, key.as_slice()))
}

// Accepts the part that a DELIVER is, by its fields.
fn accept_fields(store: &mut [u8], data: &[u8], f: DeliverFields) -> Result<PartAccepted, Refusal>
    requires { (store_octets ≤ length store.old) × (fieldsSay «data».now (Ok f) ≡ read_from fields «data».now 0) × Inside «data».now 1 f }
    ensures { (result, store.new) ≡ arriving (arrival_of (delivered (fields_at «data».now f))) store.old }
{
    let start = f.data;
    let end = start + f.octets;
    let udhi = f.first / 64 % 2 == 1;
    let part = part_number::number_part(udhi, f.dcs, f.udl, &data[start..end])?;
    let sender = address::address_at(data, f.address);
    let key = message_store::key_of(sender.address.number(), part.reference, part.total);
    let fields = PartFields {
        numbers: part,
        dcs: f.dcs,
        udl: f.udl,
    };
    place_part(store, key.as_slice(), fields, &data[start..end])
}

// ---- the four calls

// Empties a store, so that it can begin.
pub fn empty_store(store: &mut [u8]) -> Result<(), Refusal>
    ensures { (result, store.new) ≡ emptied store.old }
{
    if store.len() < STORE_OCTETS {
        return Err(Refusal::LengthTooLarge);
    }
    store[..STORE_OCTETS].fill(0);
    Ok(())
}

// Accepts the part that the octets of a DELIVER are: the numbers of its message that are still missing.
pub fn accept_part(store: &mut [u8], data: &[u8]) -> Result<PartAccepted, Refusal>
    ensures { (result, store.new) ≡ accepting «data».now store.old }
{
    let fields = deliver::reading::fields_of(data)?;
    if !message_store::fits_store(store) {
        return Err(Refusal::LengthTooLarge);
    }
    accept_fields(store, data, fields)
}

// Hands over the message of a slot if it is whole, and closes the slot.
#[tactic(auto, using(crate::proofs::Taking::hands_missing))]
fn hand_over(slot: &mut Slot, total: u8, out: &mut [u8]) -> Result<MessageTaken, Refusal>
    requires { total ≤ 8 }
    ensures { (result, slot.new, out.new) ≡ handing total slot.old out.old }
{
    if message_store::missing_in(slot, total).length != 0 {
        return Ok(MessageTaken::NotWhole);
    }
    let mut shown = [0u8; MESSAGE_OCTETS];
    let n = message_store::put_parts(&mut shown, slot, total);
    if out.len() < n {
        return Err(Refusal::OutputTooShort);
    }
    octets::put_octets(out, 0, &shown[..n]);
    let dcs = slot[CODING];
    slot[OPEN] = 0;
    Ok(MessageTaken::Whole(dcs, n))
}

// Takes a whole message out of the store.
pub fn take_message(
    store: &mut [u8],
    address: SMSAddress,
    reference: Reference,
    total: u8,
    out: &mut [u8],
) -> Result<MessageTaken, Refusal>
    ensures { (result, store.new, out.new) ≡ taking_by address reference total store.old out.old }
{
    let Some(k) = find_by(store, address, reference, total)? else {
        return Ok(MessageTaken::NotOpen);
    };
    let (_, from) = store.split_at_mut(k * SLOT_OCTETS);
    hand_over(from.first_chunk_mut().unwrap(), total, out)
}

// Drops a message from the store.
pub fn drop_message(
    store: &mut [u8],
    address: SMSAddress,
    reference: Reference,
    total: u8,
) -> Result<MessageDropped, Refusal>
    ensures { (result, store.new) ≡ dropping_by address reference total store.old }
{
    let Some(k) = find_by(store, address, reference, total)? else {
        return Ok(MessageDropped::NotOpen);
    };
    store[k * SLOT_OCTETS] = 0;
    Ok(MessageDropped::Done)
}
