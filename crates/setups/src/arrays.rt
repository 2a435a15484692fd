//! Arrays of which the first places are used.
ghost use Rattle.std.specs.Prelude.{◌≡◌, ◌≤◌, ◌-◌, length, take, drop, replicate};

/// An array that begins with these items, or with as many of them as it has room for, and goes on with `rest` to its
/// end.
#[tactic(auto, using(crate::proofs::Padding::rest_of))]
pub fn array_with<T: Copy, const N: usize>(items: &[T], rest: T) -> [T; N]
    ensures whole { length items.now ≤ N → take (length items.now) result ≡ items.now }
    ensures rest { length items.now ≤ N → drop (length items.now) result ≡ replicate (N - length items.now) rest }
    ensures cut { N ≤ length items.now → result ≡ take N items.now }
{
    let mut array = [rest; N];
    let count = items.len().min(N);
    array[..count].copy_from_slice(&items[..count]);
    array
}
