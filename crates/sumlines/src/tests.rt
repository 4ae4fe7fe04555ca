// Sum lines as they stand in the bytes.

use crate::sum_line::{item_line, line_at};
use package::{SUM_G, SUM_O, SumAt};

// Two lines, at places 0 and 13; the bytes end at place 29.
const BYTES: &[u8] = b"G 2 4 ab 3 -\nO 99999 1 - 4 b\n";

// The kind, the item, the polynomial that a line names, and the place behind it.
fn told(s: SumAt) -> (u32, usize, usize, usize) {
    (s.kind, s.item, s.of, s.next)
}

#[test]
fn lines_stand_at_places(rt: HostRuntime) {
    assert_eq!(rt; line_at(BYTES, 0).map(told), Some((2, 2, 3, 13)));
    assert_eq!(rt; line_at(BYTES, 13).map(told), Some((3, 99999, 4, 29)));
    assert_eq!(rt; line_at(BYTES, 29).map(told), None);
}

#[test]
fn lines_are_of_an_item(rt: HostRuntime) {
    let next = line_at(BYTES, 13);
    assert_eq!(rt;
        item_line(next, SUM_O, 99999).map(told),
        Some((3, 99999, 4, 29))
    );
    assert_eq!(rt; item_line(next, SUM_O, 99998).map(told), None);
    assert_eq!(rt; item_line(next, SUM_G, 99999).map(told), None);
    assert_eq!(rt; item_line(None, SUM_O, 1).map(told), None);
}
