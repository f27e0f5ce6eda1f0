// The fields of an answer, and the answer of a writer. Functions are named for what they write.
ghost use Rattle.std.specs.Prelude.{◌≡◌, ◌≤◌, None, IsErr};
ghost use Rattle.octets.specs.Texts.{codes};
ghost use Rattle.output.specs.Output.{appended};

use output::Output;
use text_fields::slices::first;
use tpdu::{Refusal, Time, UserData};

// ---- fields: a name, such as ` udl=`, and a value

pub fn number(out: &mut Output, name: &[u8], n: u8) {
    out.put(name);
    out.put_decimal(u64::from(n));
}

// Several numbers, each after its name.
pub fn numbers(out: &mut Output, fields: &[(&[u8], u8)]) {
    for (name, n) in fields {
        number(out, name, *n);
    }
}

#[tactic(auto, unfolding(octets::specs::Texts::codes))]
pub fn absent(out: &mut Output, name: &[u8])
    ensures { out.new ≡ appended 65536 (codes "-") (appended 65536 name.now out.old) }
{
    out.put(name);
    out.put(b"-");
}

// Items with commas between.
pub fn list(out: &mut Output, name: &[u8], items: &[u8]) {
    out.put(name);
    let mut separator: &[u8] = b"";
    for item in items {
        number(out, separator, *item);
        separator = b",";
    }
}

// How many escapes were replaced: the last field of an answer with text.
pub fn replaced(out: &mut Output, n: usize) {
    out.put(b" replaced=");
    out.put_decimal(n as u64);
}

// An octet in hexadecimal.
pub fn octet(out: &mut Output, name: &[u8], octet: u8) {
    out.put(name);
    out.put_hex_octet(octet);
}

// What another function writes of a value, or that there is none.
pub fn optional<T: Copy, F: FnOnce(&mut Output, &[u8], T)>(
    out: &mut Output,
    name: &[u8],
    value: Option<T>,
    put: F,
)
    requires { F.IsAlwaysCallable put }
    ensures { value ≡ None → out.new ≡ appended 65536 (codes "-") (appended 65536 name.now out.old) }
{
    match value {
        Some(x) => put(out, name, x),
        None => absent(out, name),
    }
}

// Octets in hexadecimal.
pub fn octets(out: &mut Output, name: &[u8], octets: &[u8]) {
    out.put(name);
    out.put_hex(octets);
}

// Type of number, plan and text of an address.
pub fn address(out: &mut Output, ton: u8, npi: u8, text: &[u8]) {
    numbers(out, &[(b" ton=", ton), (b" npi=", npi)]);
    octets(out, b" address=", text);
}

pub fn user_data(out: &mut Output, name: &[u8], data: UserData) {
    octets(out, name, data.as_slice());
}

// The digits of a time.
pub fn time(out: &mut Output, name: &[u8], time: Time) {
    out.put(name);
    out.put(time.as_slice());
}

// ---- a writer's octets

// The answer of a writer, which is lent N octets: those that it wrote.
pub fn written<const N: usize, F: FnOnce(&mut [u8]) -> Result<usize, Refusal>>(
    out: &mut Output,
    write: F,
) -> Result<(), Refusal>
    requires call { F.IsAlwaysCallable write }
    requires size { N ≤ 65536 }
    ensures { IsErr result → out.new ≡ out.old }
{
    let mut lent = [0u8; N];
    let n = write(&mut lent)?;
    octets(out, b"ok ", first(&lent, n));
    Ok(())
}
