// The entries of a slice, one of them moved and those between making room.

ghost use Rattle.std.specs.Prelude.{◌≤◌, ◌<◌, length};
ghost use Rattle.working.specs.Rotation.{Moved, rotated_right, rotated_left};

// Entry n goes to k, and those from k on one to the right.
pub fn rotate_right(a: &mut [u16], k: usize, n: usize)
    requires { (k ≤ n) × (n < length a.old) }
    ensures { Moved (rotated_right k n) a.old a.new }
{
    let x = a[n];
    // (Not by the slice's `rotate_right`: the archive would need `memmove`.)
    for i in (k..n).rev() {
        a[i + 1] = a[i];
    }
    a[k] = x;
}

// Entry k goes to m, and those behind it, up to m, one to the left.
pub fn rotate_left(a: &mut [u16], k: usize, m: usize)
    requires { (k ≤ m) × (m < length a.old) }
    ensures { Moved (rotated_left k m) a.old a.new }
{
    let x = a[k];
    // (Not by the slice's `rotate_left`: the archive would need `memmove`.)
    for i in k..m {
        a[i] = a[i + 1];
    }
    a[m] = x;
}
