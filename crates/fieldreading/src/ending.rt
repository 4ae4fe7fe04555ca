// Where a field or a line ends.

ghost use Rattle.std.specs.Prelude.{◌≡◌, ◌<◌, eqb, get_or};

// Whether the byte `end`, which is not 0, stands at the place i of a text: no byte stands behind its end.
pub fn ends_at(s: &[u8], i: usize, end: u8) -> bool
    requires { 0 < end }
    ensures { result ≡ eqb (get_or s.now i 0) end }
{
    s.get(i) == Some(&end)
}
