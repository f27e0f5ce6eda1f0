// Octets cut and searched.
ghost use Rattle.std.specs.Prelude.{◌≡◌, ◌≤◌, ◌<◌, IfSome, length, take};

// The first n items; all of them where there are fewer.
pub fn first<T>(items: &[T], n: usize) -> &[T]
    ensures { result.now ≡ take n items.now }
{
    &items[..n.min(items.len())]
}

// The first place from `from` on that holds an octet.
pub fn find(octets: &[u8], from: usize, octet: u8) -> Option<usize>
    ensures { IfSome result (λ i. (from ≤ i) × (i < length octets.now)) }
{
    Some(from + octets.get(from..)?.iter().position(|x| *x == octet)?)
}
