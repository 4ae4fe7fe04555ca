// Slices of bytes: the first place of a byte, and tests that look at every byte.

ghost use Rattle.std.specs.Prelude.{◌≡◌, ℕ, ◌+◌, ◌≤◌, length, drop};
ghost use Rattle.lists.specs.Same.{same};
ghost use Rattle.text.specs.Pieces.{stop};
ghost use Rattle.text.specs.Bytes.{within, all_within};

// The place of the first byte b of s from the place at on, or the length of s if there is none.
pub fn find(s: &[u8], at: usize, b: u8) -> usize
    requires { at ≤ length s.now }
    ensures value { result ≡ at + stop b (drop at s.now) }
    ensures upper_bound { result ≤ length s.now }
    ensures lower_bound { at ≤ result }
{
    let rest = &s[at..];
    match rest.iter().position(|&x| x == b) {
        Some(n) => at + n,
        None => s.len(),
    }
}

// Whether two slices hold the same bytes, one after the other.
pub fn is_same(a: &[u8], b: &[u8]) -> bool
    ensures { result ≡ same a.now b.now }
{
    if a.len() != b.len() {
        return false;
    }
    for i in 0..a.len() {
        if a[i] != b[i] {
            return false;
        }
    }
    true
}

// Whether x is one of lo, .., hi.
pub fn is_within(lo: u32, hi: u32, x: u32) -> bool
    ensures { result ≡ within lo hi x }
{
    (lo..=hi).contains(&x)
}

// Whether every byte of f is one of lo, .., hi.
pub fn all_within(lo: u32, hi: u32, f: &[u8]) -> bool
    ensures { result ≡ all_within lo hi f.now }
{
    f.iter().all(|&x| is_within(lo, hi, u32::from(x)))
}
