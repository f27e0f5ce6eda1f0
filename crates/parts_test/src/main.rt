// The longest text that is sent in parts, and a text that is one letter too long: a line of `tpdutool` has no room for
// them. The answers are said, and what the first and the last part tell of themselves.
#![tactic(auto)]

use std::io;

// Sends a text, and says the answer: the numbers of messages and of octets, or a refusal.
fn send<R: Print>(rt: &R, text: &[u8], out: &mut [u8]) -> io::Result<()> {
    print!(rt; "{} letters, {} octets lent: ", text.len(), out.len())?;
    match tpdu::pack_gsm7_concatenated(text, 0x2A, out) {
        Ok(sent) => println!(rt; "{} messages, {} octets", sent.messages, sent.octets),
        Err(why) => println!(rt; "{why}"),
    }
}

// Says the number of a part, the total and TP-UDL.
fn say_part<R: Print>(rt: &R, number: u8, total: u8, udl: u8) -> io::Result<()> {
    println!(rt; "part {number} of {total}, TP-UDL {udl}")
}

fn main(rt: HostRuntime) -> io::Result<()> {
    let text = [b'a'; 39016];
    let mut out = [0u8; 35955];
    send(&rt, &text[0..39015], &mut out)?;
    say_part(&rt, out[6], out[5], out[0])?;
    say_part(&rt, out[35820], out[35819], out[35814])?;
    send(&rt, &text[0..39015], &mut [0u8; 35954])?;
    send(&rt, &text, &mut [0u8; 35955])
}
