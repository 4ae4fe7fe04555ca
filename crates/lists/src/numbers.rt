// A number of 32 bits as a wider one.

ghost use Rattle.std.specs.Prelude.{◌≡◌};

// A number of 32 bits as a wider one.
pub fn wide(x: u32) -> usize
    ensures { result ≡ x }
{
    x as usize
}
