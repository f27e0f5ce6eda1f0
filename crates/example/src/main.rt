// A program to start from: reads an SMS-DELIVER, says what is in it, and writes two SMS-SUBMITs to its sender.
// All names of the library are those of its face, `tpdu`; crates.txt lists beside it the crates of the types used here.
#![tactic(auto)]

use std::io;
use tpdu::{Refusal, SMSAddress, SmsDeliver, SmsSubmit, UserData};

// Says octets in hexadecimal.
fn say_hex<R: Print>(rt: &R, octets: &[u8]) -> io::Result<()> {
    for octet in octets {
        print!(rt; "{octet:02x}")?;
    }
    println!(rt)
}

fn say_number<R: Print>(rt: &R, sender: SMSAddress) -> io::Result<()> {
    rt.write_all(sender.address.as_slice())?;
    rt.write_all(b": ")
}

// Says the text of user data in 7-bit coding, or why there is none.
fn say_text<R: Print>(rt: &R, data: UserData, septets: u8) -> io::Result<()> {
    match tpdu::unpack_gsm7(data.as_slice(), septets as usize) {
        Ok(read) => {
            rt.write_all(read.text.as_slice())?;
            println!(rt)
        }
        Err(why) => println!(rt; "{why}"),
    }
}

// Writes a text in 7-bit coding to a lent buffer; how many octets the message takes. Its record is the blank one but for
// the fields that are set here.
fn write(
    destination: SMSAddress,
    reference: u8,
    text: &[u8],
    out: &mut [u8],
) -> Result<usize, Refusal> {
    let mut octets = [0u8; 255];
    let packed = tpdu::pack_gsm7(text, &mut octets)?;
    let septets = u8::try_from(packed.septets).map_err(|_| Refusal::TooManySeptets)?;
    let message = SmsSubmit {
        tp_mti: 1,
        tp_mr: reference,
        tp_destination_address: Some(destination),
        tp_user_data_length: septets,
        tp_user_data_raw: UserData {
            octets,
            length: packed.octets,
        },
        ..SmsSubmit::default()
    };
    message.encode(out)
}

// Writes a message and says its octets, or why there are none; how many octets it takes.
fn send<R: Print>(
    rt: &R,
    destination: SMSAddress,
    reference: u8,
    text: &[u8],
    out: &mut [u8],
) -> io::Result<usize> {
    match write(destination, reference, text, out) {
        Ok(n) => {
            say_hex(rt, out.get(..n).unwrap_or_default())?;
            Ok(n)
        }
        Err(why) => {
            println!(rt; "{why}")?;
            Ok(0)
        }
    }
}

// Two messages, one after the other.
fn send_two<R: Print>(rt: &R, destination: SMSAddress, out: &mut [u8]) -> io::Result<()> {
    let n = send(rt, destination, 1, b"REEL3 MOISTURE 7.5", out)?;
    if let Some(rest) = out.get_mut(n..) {
        send(rt, destination, 2, b"was 8.0", rest)?;
    }
    Ok(())
}

// Says the text of the SUBMIT after so many octets; how many it takes.
fn read_after<R: Print>(rt: &R, octets: &[u8], count: usize) -> io::Result<usize> {
    match tpdu::submit_behind(octets, count) {
        Ok(read) => {
            let message = read.message;
            say_text(rt, message.tp_user_data_raw, message.tp_user_data_length)?;
            Ok(read.octets_read)
        }
        Err(why) => {
            println!(rt; "{why}")?;
            Ok(0)
        }
    }
}

fn main(rt: HostRuntime) -> io::Result<()> {
    let octets = b"\x04\x0b\x91\x13\x56\x55\x00\x21\xf3\x00\x00\x62\x11\x61\x20\x51\x00\x40\
        \x15\x53\x28\x48\x5a\x2c\x32\x67\xa0\xe6\x33\x39\xa5\x56\xa5\x45\xd0\xcd\x55\x03";
    let message = match SmsDeliver::decode(octets) {
        Ok(read) => read.message,
        Err(why) => return println!(rt; "{why}"),
    };
    say_number(&rt, message.tp_originating_address)?;
    say_text(&rt, message.tp_user_data, message.tp_user_data_length)?;
    let mut out = [0u8; 64];
    send_two(&rt, message.tp_originating_address, &mut out)?;
    let count = read_after(&rt, &out, 0)?;
    read_after(&rt, &out, count)?;
    send_two(&rt, message.tp_originating_address, &mut [0u8; 8])
}
