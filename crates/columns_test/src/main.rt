// The largest log block, 1,000 strings of 255 octets, there and back; and lengths that pass the octets lent. A line of
// `tpdutool` has no room for the first and can't say the second.
#![tactic(auto)]

use std::io;

// Writes a block, and says how many octets it has.
fn write<R: Print>(rt: &R, octets: &[u8], lengths: &[usize], out: &mut [u8]) -> io::Result<()> {
    print!(rt; "{} strings, {} octets lent, ", lengths.len(), octets.len())?;
    print!(rt; "{} for the block: ", out.len())?;
    match tpdu::to_columns(octets, lengths, out) {
        Ok(n) => println!(rt; "{n} octets"),
        Err(why) => println!(rt; "{why}"),
    }
}

// Reads a block, and says how many strings and octets it has.
fn read<R: Print>(
    rt: &R,
    block: &[u8],
    octets: &mut [u8],
    lengths: &mut [usize],
) -> io::Result<()> {
    print!(rt;
        "{} octets of a block, {} octets lent ",
        block.len(),
        octets.len()
    )?;
    print!(rt; "and {} lengths: ", lengths.len())?;
    match tpdu::from_columns(block, octets, lengths) {
        Ok(read) => println!(rt; "{} strings, {} octets", read.strings, read.octets),
        Err(why) => println!(rt; "{why}"),
    }
}

// Says four octets.
fn say_octets<R: Print>(rt: &R, what: &str, a: u8, b: u8, c: u8, d: u8) -> io::Result<()> {
    println!(rt; "{what} {a} {b} {c} {d}")
}

// One octet too few is lent, then one too few for the block; then a string has 256 octets.
fn not_written<R: Print>(
    rt: &R,
    octets: &[u8],
    lengths: &[usize],
    block: &mut [u8],
) -> io::Result<()> {
    let mut less = [0u8; 257001];
    let long = [256usize; 1];
    let fewer = octets.get(..254999).unwrap_or_default();
    write(rt, fewer, lengths, block)?;
    write(rt, octets, lengths, &mut less)?;
    write(rt, octets, &long, block)
}

// The block lacks its last octet; then room for an octet is missing, then room for a length.
fn not_read<R: Print>(
    rt: &R,
    block: &[u8],
    octets: &mut [u8],
    lengths: &mut [usize],
) -> io::Result<()> {
    let mut less = [0u8; 254999];
    let mut fewer = [0usize; 999];
    let cut = block.get(..257001).unwrap_or_default();
    read(rt, cut, octets, lengths)?;
    read(rt, block, &mut less, lengths)?;
    read(rt, block, octets, &mut fewer)
}

// Four octets are unlike the others: the first two of the first string, the first of the second, the last of the last.
fn main(rt: HostRuntime) -> io::Result<()> {
    let mut octets = [7u8; 255000];
    octets[0] = 1;
    octets[1] = 2;
    octets[255] = 3;
    octets[254999] = 4;
    let lengths = [255usize; 1000];
    let mut block = [0u8; 257002];
    write(&rt, &octets, &lengths, &mut block)?;
    say_octets(&rt, "numbers", block[0], block[1], block[2], block[3])?;
    say_octets(
        &rt,
        "octets",
        block[2002],
        block[2003],
        block[3002],
        block[257001],
    )?;
    let mut back = [0u8; 255000];
    let mut list = [0usize; 1000];
    read(&rt, &block, &mut back, &mut list)?;
    say_octets(&rt, "octets", back[0], back[1], back[255], back[254999])?;
    println!(rt; "{} octets in the last string", list[999])?;
    not_written(&rt, &octets, &lengths, &mut block)?;
    not_read(&rt, &block, &mut back, &mut list)
}
