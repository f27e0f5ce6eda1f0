// Values that are octets: written by a closure, or that there are none.
ghost use Rattle.std.specs.Prelude.{◌≡◌, length};
ghost use Rattle.octets.specs.Texts.{codes};
ghost use Rattle.output.specs.Output.{appended};

use output::Output;

// What a closure writes of octets, or that they are none.
#[tactic(auto, unfolding(octets::specs::Texts::codes))]
pub fn put_unless_empty<F: FnOnce(&mut Output, &[u8])>(out: &mut Output, octets: &[u8], put: F)
    requires { F.IsAlwaysCallable put }
    ensures { length octets.now ≡ 0 → out.new ≡ appended 65536 (codes "(empty)") out.old }
{
    if octets.is_empty() {
        out.put(b"(empty)");
    } else {
        put(out, octets);
    }
}

// Octets in hexadecimal.
pub fn put_octets(out: &mut Output, octets: &[u8]) {
    put_unless_empty(out, octets, |out, octets| out.put_hex(octets));
}
