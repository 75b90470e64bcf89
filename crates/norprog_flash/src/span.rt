//! Where two byte strings differ.

ghost use Rattle.std.specs.Prelude.{◌≡◌, ◌<◌, ◌≤◌, ℕ, length, slice_index};

/// The place of the first byte that differs and that after the last one; 0 twice where none does.
pub(crate) fn differing(one: &[u8], other: &[u8]) -> (usize, usize)
    requires { length one.now ≡ length other.now }
    ensures order { result.0 ≤ result.1 }
    ensures within { result.1 ≤ length one.now }
    ensures before { (a : ℕ) → a < result.0 → slice_index one.now a ≡ slice_index other.now a }
    ensures after { (a : ℕ) → result.1 ≤ a → slice_index one.now a ≡ slice_index other.now a }
{
    let mut low = one.len();
    let mut high = 0;
    for place in 0..one.len() {
        if one[place] != other[place] {
            low = low.min(place);
            high = place + 1;
        }
    }
    (low.min(high), high)
}
