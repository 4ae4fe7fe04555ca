// A case's head line, 81 bytes: the service's letter and a space; the case's name, 49 bytes, filled up with spaces; and then, each behind a
// space, the bytes of room that are lent for the answer, the package's bytes and the formula's bytes, five digits each, and the budget, ten
// digits; and the line end. Under the letter W the package is a word, the formula another, and the budget a place of that; under N the package is a
// word.

ghost use Rattle.std.specs.Prelude.{◌≡◌, ◌≤◌, length};
ghost use Rattle.cases.specs.HeadLine.{digit, said, room_said, package_said, formula_said, budget_said};

// The number that a digit says; 0 for any other byte.
fn digit_value(d: u8) -> usize
    ensures { (result ≡ digit d) × (result ≤ 9) }
{
    match d {
        b'0'..=b'9' => usize::from(d - b'0'),
        _ => 0,
    }
}

// The number that at most ten digits say.
fn number_said(f: &[u8]) -> usize
    requires { length f.now ≤ 10 }
    ensures { result ≡ said 0 f.now }
{
    let mut n = 0;
    for &d in f {
        n = n * 10 + digit_value(d);
    }
    n
}

// The bytes of room that a head line says, 65,536 at most.
pub fn room(head: &[u8]) -> usize
    requires { length head.now ≡ 81 }
    ensures { (result ≡ room_said head.now) × (result ≤ 65536) }
{
    number_said(&head[52..57]).min(65536)
}

// The package's bytes that a head line says, 65,537 at most.
pub fn package_len(head: &[u8]) -> usize
    requires { length head.now ≡ 81 }
    ensures { (result ≡ package_said head.now) × (result ≤ 65537) }
{
    number_said(&head[58..63]).min(65537)
}

// The formula's bytes that a head line says, 99,999 at most.
pub fn formula_len(head: &[u8]) -> usize
    requires { length head.now ≡ 81 }
    ensures { (result ≡ formula_said head.now) × (result ≤ 99999) }
{
    number_said(&head[64..69])
}

// The budget that a head line says, 4,294,967,295 at most.
pub fn budget(head: &[u8]) -> u32
    requires { length head.now ≡ 81 }
    ensures { result ≡ budget_said head.now }
{
    number_said(&head[70..80]).min(4294967295) as u32
}
