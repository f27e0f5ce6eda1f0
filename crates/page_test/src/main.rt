// The shift page of records that no reader gives, so that no request of `tpdutool` reaches them: lengths that pass their
// arrays, times that are none, small letters; and outputs that are too short. The answers are said, and pages shown.
#![tactic(auto)]

use std::io;
use tpdu::{Refusal, SmsStatusReport, Time};

// Says the number of octets, or the refusal.
fn say_answer<R: Print>(rt: &R, answer: Result<usize, Refusal>) -> io::Result<()> {
    match answer {
        Ok(n) => println!(rt; "{n} octets"),
        Err(why) => println!(rt; "{why}"),
    }
}

// A report to 112 with so many octets of its recipient's array and of its user data's, and a discharge time.
fn report(recipient: usize, discharge: Time, user_data: usize) -> SmsStatusReport {
    let read = SmsStatusReport::decode(&[
        0x06, 0x29, 0x03, 0x81, 0x11, 0xF2, 0x62, 0x11, 0x61, 0x20, 0x11, 0x00, 0x40, 0x62, 0x11,
        0x61, 0x20, 0x11, 0x70, 0x40, 0x4F,
    ]);
    let mut r = read.unwrap_or_default().message;
    r.tp_recipient_address.address.length = recipient;
    r.tp_discharge_time = discharge;
    r.tp_user_data.length = user_data;
    r
}

fn time(octets: [u8; 14], length: usize) -> Time {
    Time { octets, length }
}

// The page of two records.
fn try_two<R: Print>(
    rt: &R,
    what: &str,
    first: SmsStatusReport,
    second: SmsStatusReport,
) -> io::Result<()> {
    print!(rt; "{what}")?;
    let mut lent = [b'.'; 156];
    let answer = tpdu::shift_page(&[first, second], &mut lent);
    say_answer(rt, answer)?;
    if answer.is_ok() {
        rt.write_all(&lent)?;
    }
    Ok(())
}

// The page of so many records in an output of 117 octets, which is shown whatever the answer.
fn try_count<R: Print>(rt: &R, what: &str, r: SmsStatusReport, count: usize) -> io::Result<()> {
    print!(rt; "{what}")?;
    let mut lent = [b'.'; 117];
    let reports = [r; 100];
    let answer = tpdu::shift_page(&reports[..count.min(100)], &mut lent);
    say_answer(rt, answer)?;
    rt.write_all(&lent)?;
    if answer.is_err() {
        println!(rt)?;
    }
    Ok(())
}

fn main(rt: HostRuntime) -> io::Result<()> {
    let right = time(*b"26111602110704", 14);
    let good = report(3, right, 0);
    let small = report(3, time(*b"26111602110aFf", 14), 0);
    let unprintable = report(4, right, 0);
    let no_digit = report(3, time(*b"2611160211070g", 14), 0);
    let short = report(3, time(*b"26111602110704", 13), 0);
    try_two(&rt, "small letters: ", good, small)?;
    try_two(
        &rt,
        "a recipient of 291 octets: ",
        report(291, right, 0),
        good,
    )?;
    try_two(
        &rt,
        "user data of 256 octets: ",
        good,
        report(3, right, 256),
    )?;
    try_two(
        &rt,
        "a time of 15 digits: ",
        good,
        report(3, time(*b"26111602110704", 15), 0),
    )?;
    try_two(&rt, "1 before 34: ", report(4, right, 256), good)?;
    try_two(&rt, "a time of 13 digits: ", good, short)?;
    try_two(&rt, "a time with a g: ", good, no_digit)?;
    try_two(
        &rt,
        "34 before 12: ",
        report(4, time(*b"2611160211070g", 14), 0),
        good,
    )?;
    try_two(
        &rt,
        "12 of the first before 34 of the second: ",
        short,
        unprintable,
    )?;
    try_two(
        &rt,
        "34 of the first before 1 of the second: ",
        unprintable,
        report(291, right, 0),
    )?;
    try_count(&rt, "one record in 117 octets: ", good, 1)?;
    try_count(&rt, "two in 117: ", good, 2)?;
    try_count(&rt, "12 before 23: ", short, 2)?;
    try_count(&rt, "33 before 1: ", report(291, right, 0), 100)
}
