use crate::read::read_table;
use codec::fault::Fault;

// The count of a table's expressions, or the number and the place of its refusal.
fn told(bytes: &[u8]) -> Result<usize, (u8, usize)> {
    read_table(bytes)
        .map(|listing| listing.expressions)
        .map_err(Fault::number_and_place)
}

// List reversal: a helper that moves a list's elements onto another, and a function that calls it with the empty list.
#[test]
fn reversal_has_twelve_expressions(rt: HostRuntime) {
    let table =
        b"\x02\x00\x02\x00\x02\x02\x01\x01\x01\x01\x01\x01\x0c\x00\x00\x00\x01\x01\x00\x00\x04\x0b\x00\x02\x00\x03\x00\x01\x01\x00\x00\x00\x0a\x01";
    assert_eq!(rt; told(table), Ok(12));
}

#[test]
fn a_byte_too_many(rt: HostRuntime) {
    let table =
        b"\x02\x00\x02\x00\x02\x02\x01\x01\x01\x01\x01\x01\x0c\x00\x00\x00\x01\x01\x00\x00\x04\x0b\x00\x02\x00\x03\x00\x01\x01\x00\x00\x00\x0a\x01\x00";
    assert_eq!(rt; told(table), Err((8, 34)));
}

// Types that are refused at their entry: N twice, and a pair of pairs of pairs of pairs of pairs.
#[test]
fn entries_that_are_refused(rt: HostRuntime) {
    assert_eq!(rt; told(b"\x02\x00\x00"), Err((4, 2)));
    assert_eq!(rt;
        told(b"\x06\x00\x04\x00\x00\x04\x01\x01\x04\x02\x02\x04\x03\x03\x04\x04\x04"),
        Err((5, 14))
    );
}
