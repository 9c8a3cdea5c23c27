//! Places of worked texts, and excerpts. (Cases show those of short texts and of long lines.)

use crate::comparing::{equal, holds, holds_in};
use crate::texts::{extend, row};
use aa_text::{Place, PlacedText, excerpt, place_of};

fn line_and_column(place: Place) -> (usize, usize) {
    (place.line, place.column)
}

#[test]
fn places_of_one_text_are_counted_from_near_ones(rt: HostRuntime) {
    // Two hundred lines of eight bytes and seven characters each.
    let text = row(&rt, b"\t/\xC3\xA4 r,\n", 200, b"");
    equal(&rt, line_and_column(place_of(b"a\nb", 9)), (2, 2));
    let placed = PlacedText::new(rt.alloc(), text.as_slice()).expect(&rt, "memory");
    for (byte, wanted) in [
        (0, (1, 1)),
        (255, (32, 7)),
        (256, (33, 1)),
        (804, (101, 4)),
        (1600, (201, 1)),
        (9999, (201, 1)),
    ] {
        equal(&rt, line_and_column(placed.place_of(byte)), wanted);
    }
}

#[test]
fn a_caret_stands_below_the_byte(rt: HostRuntime) {
    for (text, byte, wanted) in [
        (
            "profile x {\n\n  /x wa,\n}\n",
            18,
            "    3 |   /x wa,\n      |      ^\n",
        ),
        ("", 0, "    1 | \n      | ^\n"),
        ("a\n", 2, "    2 | \n      | ^\n"),
        ("a\r\nb", 2, "    1 | a\n      |  ^\n"),
        ("\t\u{e4} x", 4, "    1 | \t\u{e4} x\n      | \t  ^\n"),
        (
            "a\x1B[0m\x7F\x01b",
            7,
            "    1 | a?[0m??b\n      |        ^\n",
        ),
    ] {
        let found = excerpt(rt.alloc(), text.as_bytes(), byte).expect(&rt, "memory");
        holds_in(&rt, found.as_slice() == wanted.as_bytes(), text);
    }
}

#[test]
fn a_character_that_would_be_cut_is_left_out(rt: HostRuntime) {
    // The part from byte 120 to 280 begins and ends within an umlaut.
    let mut line = row(&rt, b"a", 1, b"");
    extend(&rt, &mut line, row(&rt, b"\xC3\xA4", 200, b"").as_slice());
    let found = excerpt(rt.alloc(), line.as_slice(), 200).expect(&rt, "memory");
    let mut wanted = row(&rt, b"    1 | ..", 1, b"");
    extend(
        &rt,
        &mut wanted,
        row(&rt, b"\xC3\xA4", 79, b"..\n      | ").as_slice(),
    );
    extend(&rt, &mut wanted, row(&rt, b" ", 42, b"^\n").as_slice());
    holds(&rt, found.as_slice() == wanted.as_slice());
}
