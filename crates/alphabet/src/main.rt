// Prints the default alphabet and its extension table, a line for each code, for people with phones to test.
#![tactic(auto)]

use std::io;
use tpdu::ALPHABET_OCTETS;

fn main(rt: HostRuntime) -> io::Result<()> {
    let mut lines = [0u8; ALPHABET_OCTETS];
    match tpdu::alphabet_lines(&mut lines) {
        Ok(_) => rt.write_all(&lines),
        Err(why) => println!(rt; "{why}"),
    }
}
