// How the working formula starts.

ghost use Rattle.std.specs.Prelude.{◌≤◌, length};
ghost use Rattle.working.specs.Working.{Arranged};

// Names the places 0, 1, 2, .. in order, which an entry of 16 bits can: whatever the arrays hold, they then hold the formula of no terms.
pub fn start(o: &mut [u16])
    requires { length o.old ≤ 65536 }
    ensures { Arranged o.new }
{
    for (i, place) in o.iter_mut().enumerate() {
        *place = i as u16;
    }
}
