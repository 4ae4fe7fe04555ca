// The bytes of a slice that a service left as they were: it is filled with `~` beforehand.

ghost use Rattle.std.specs.Prelude.{◌≡◌, drop};
ghost use Rattle.lending.specs.Kept.{count_kept_of};

// How many bytes from the place from on hold `~`.
pub fn count_kept(out: &[u8], from: usize) -> usize
    ensures { result ≡ count_kept_of (drop from out.now) }
{
    if out.len() <= from {
        return 0;
    }
    let mut n = 0;
    // Not by `filter` and `count`, with which the stored cases took a quarter longer.
    for &b in &out[from..] {
        let kept = b == b'~';
        if kept {
            n += 1;
        }
    }
    n
}
