// What the store of `tpdutool` never shows, since only the calls write it and it is long enough: a store that is one octet
// too short or whose length fields pass their arrays (refusal 1), and an output that is one octet too short (23), after
// which the message is still there. The answers are said.
#![tactic(auto)]

use std::io;
use tpdu::{MessageDropped, MessageTaken, Reference, SMSAddress};

// Empties a store, and says the answer.
fn empty<R: Print>(rt: &R, store: &mut [u8]) -> io::Result<()> {
    match tpdu::empty_store(store) {
        Ok(()) => println!(rt; "ok"),
        Err(why) => println!(rt; "{why}"),
    }
}

// The one part of a message from 12345, reference 7, in 8-bit coding: two octets after the header.
fn accept<R: Print>(rt: &R, store: &mut [u8]) -> io::Result<()> {
    let data = [
        0x44, 0x05, 0x91, 0x21, 0x43, 0xF5, 0x00, 0x04, 0x42, 0x20, 0x51, 0x21, 0x03, 0x54, 0x00,
        0x08, 0x05, 0x00, 0x03, 0x07, 0x01, 0x01, 0x41, 0x42,
    ];
    print!(rt; "accepting: ")?;
    match tpdu::accept_part(store, &data) {
        Ok(_) => println!(rt; "ok"),
        Err(why) => println!(rt; "{why}"),
    }
}

fn sender() -> SMSAddress {
    SMSAddress {
        ton: 1,
        npi: 1,
        address: octets::hold(b"12345"),
    }
}

fn take<R: Print>(rt: &R, store: &mut [u8], out: &mut [u8]) -> io::Result<()> {
    print!(rt; "taking: ")?;
    match tpdu::take_message(store, sender(), Reference::Eight(7), 1, out) {
        Ok(MessageTaken::Whole(_, n)) => println!(rt; "{n} octets"),
        Ok(MessageTaken::NotOpen) => println!(rt; "not open"),
        Ok(MessageTaken::NotWhole) => println!(rt; "not whole"),
        Err(why) => println!(rt; "{why}"),
    }
}

fn drop<R: Print>(rt: &R, store: &mut [u8]) -> io::Result<()> {
    print!(rt; "dropping: ")?;
    match tpdu::drop_message(store, sender(), Reference::Eight(7), 1) {
        Ok(MessageDropped::Done) => println!(rt; "ok"),
        Ok(MessageDropped::NotOpen) => println!(rt; "not open"),
        Err(why) => println!(rt; "{why}"),
    }
}

// The three calls on a store that none of them can use.
fn all_refused<R: Print>(rt: &R, store: &mut [u8]) -> io::Result<()> {
    let mut out = [0u8; 2];
    accept(rt, store)?;
    take(rt, store, &mut out)?;
    drop(rt, store)
}

// The message of one part, accepted and taken: not into one octet, then into two, then no more.
fn whole<R: Print>(rt: &R, store: &mut [u8]) -> io::Result<()> {
    let mut one = [0u8; 1];
    let mut out = [0u8; 2];
    accept(rt, store)?;
    take(rt, store, &mut one)?;
    take(rt, store, &mut out)?;
    println!(rt; "{} {}", out[0], out[1])?;
    take(rt, store, &mut out)
}

fn main(rt: HostRuntime) -> io::Result<()> {
    let mut short = [0u8; 37695];
    println!(rt; "a store of 37,695 octets")?;
    empty(&rt, &mut short)?;
    all_refused(&rt, &mut short)?;
    let mut store = [0xFFu8; 37696];
    println!(rt; "a store of 37,696 octets, all FF")?;
    all_refused(&rt, &mut store)?;
    empty(&rt, &mut store)?;
    println!(rt; "the last slot says 9 parts")?;
    store[35340] = 1;
    store[35350] = 9;
    all_refused(&rt, &mut store)?;
    println!(rt; "its address has 291 octets")?;
    store[35350] = 8;
    store[35356] = 1;
    store[35357] = 35;
    all_refused(&rt, &mut store)?;
    println!(rt; "it is not open")?;
    store[35340] = 0;
    whole(&rt, &mut store)
}
