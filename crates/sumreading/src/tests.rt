// Sum lines of a text, read and judged one by one.

use crate::sum_lines::{judge_sum, read_sum};
use package::{Head, Limits, Refusal, SUM_B, SUM_O, SumAt};

const HEAD: Head = Head {
    p: 5,
    letters: 2,
    gens: 3,
    basis: 4,
};

const LIMITS: Limits = Limits { terms: 64, len: 24 };

// Two lines in order, the second at place 13, and then one without its last field, at place 29.
const TEXT: &[u8] = b"B 2 4 ab 3 -\nO 99999 1 - 4 b\nO 99999 1 - 4\n";

// What a line says, the words by their places and lengths, and the place behind it.
fn said(s: SumAt) -> [usize; 9] {
    [
        s.kind as usize,
        s.item,
        s.coef as usize,
        s.left,
        s.left_len,
        s.of,
        s.right,
        s.right_len,
        s.next,
    ]
}

#[test]
fn lines_are_read(rt: HostRuntime) {
    assert_eq!(rt;
        read_sum(TEXT, 0).map(said),
        Some([1, 2, 4, 6, 2, 3, 11, 0, 13])
    );
    assert_eq!(rt;
        read_sum(TEXT, 13).map(said),
        Some([3, 99999, 1, 23, 0, 4, 27, 1, 29])
    );
    assert_eq!(rt; read_sum(TEXT, 29).map(said), None);
}

#[test]
fn lines_are_judged(rt: HostRuntime) {
    let first = judge_sum(HEAD, LIMITS, 0, 0, TEXT, 0, 9);
    assert_eq!(rt; first.map(said), Ok([1, 2, 4, 6, 2, 3, 11, 0, 13]));
    let behind = judge_sum(HEAD, LIMITS, SUM_B, 2, TEXT, 13, 10);
    assert_eq!(rt; behind.map(said), Ok([3, 99999, 1, 23, 0, 4, 27, 1, 29]));
}

#[test]
fn lines_are_refused(rt: HostRuntime) {
    let no_line = judge_sum(HEAD, LIMITS, SUM_O, 1, TEXT, 29, 11);
    assert_eq!(rt;
        no_line.map(said),
        Err(Refusal {
            number: 2,
            place: 11
        })
    );
    let out_of_bounds = judge_sum(Head { basis: 3, ..HEAD }, LIMITS, SUM_B, 2, TEXT, 13, 10);
    assert_eq!(rt;
        out_of_bounds.map(said),
        Err(Refusal {
            number: 5,
            place: 10
        })
    );
    let out_of_order = judge_sum(HEAD, LIMITS, SUM_B, 3, TEXT, 0, 9);
    assert_eq!(rt;
        out_of_order.map(said),
        Err(Refusal {
            number: 6,
            place: 9
        })
    );
}
