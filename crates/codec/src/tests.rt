use crate::cursor::Cursor;
use crate::fault::{Fault, Part};
use crate::integer::unzigzag;
use crate::pile::Pile;
use crate::writer::{write_integer, write_number, written_len};

#[test]
fn long_forms_are_read(rt: HostRuntime) {
    let bytes = [
        5, 133, 0, 133, 128, 128, 128, 0, 172, 2, 255, 255, 255, 255, 15,
    ];
    let mut cursor = Cursor::new(&bytes, Part::Table);
    assert_eq!(rt; cursor.number(), Ok(5));
    assert_eq!(rt; cursor.number(), Ok(5));
    assert_eq!(rt; cursor.number(), Ok(5));
    assert_eq!(rt; cursor.number(), Ok(300));
    assert_eq!(rt; cursor.number(), Ok(u32::MAX));
    assert_eq!(rt;
        cursor.number().map_err(Fault::number_and_place),
        Err((1, 15))
    );
}

#[test]
fn refusals_name_where_the_number_begins(rt: HostRuntime) {
    let mut ended = Cursor::new(&[1, 128], Part::Table);
    assert_eq!(rt; ended.mark(), Ok(true));
    assert_eq!(rt;
        ended.number().map_err(Fault::number_and_place),
        Err((1, 1))
    );
    assert_eq!(rt; ended.place(), 1);
    let mut overlong = Cursor::new(&[255, 255, 255, 255, 16], Part::Table);
    assert_eq!(rt;
        overlong.number().map_err(Fault::number_and_place),
        Err((2, 0))
    );
    let mut range = Cursor::new(&[0, 128, 1, 2], Part::Value);
    assert_eq!(rt; range.mark(), Ok(false));
    assert_eq!(rt;
        range.within(0, 128).map_err(Fault::number_and_place),
        Err((3, 1))
    );
    assert_eq!(rt; range.within(128, 129), Ok(128));
    assert_eq!(rt; range.mark().map_err(Fault::number_and_place), Err((3, 3)));
}

#[test]
fn what_is_written_is_read(rt: HostRuntime) {
    // each number with its length
    let numbers = [
        (0, 1),
        (127, 1),
        (128, 2),
        (16383, 2),
        (16384, 3),
        (2097151, 3),
        (2097152, 4),
        (268435455, 4),
        (268435456, 5),
        (u32::MAX, 5),
    ];
    for (n, len) in numbers {
        assert_eq!(rt; written_len(n), len);
        let mut area = [7; 6];
        assert_eq!(rt; write_number(&mut area, 0, n), Some(len));
        assert_eq!(rt; area[5], 7);
        let mut cursor = Cursor::new(&area, Part::Value);
        assert_eq!(rt; cursor.number(), Ok(n));
        assert_eq!(rt; cursor.place(), len);
    }
}

#[test]
fn an_integer_fills_its_area_or_leaves_it(rt: HostRuntime) {
    let mut area = [9; 5];
    assert_eq!(rt; write_integer(&mut area, 1, i32::MIN), None);
    assert_eq!(rt; area, [9; 5]);
    assert_eq!(rt; write_integer(&mut area, 0, i32::MIN), Some(5));
    assert_eq!(rt; area, [255, 255, 255, 255, 15]);
    assert_eq!(rt; write_integer(&mut area, 4, -1), Some(5));
    assert_eq!(rt; area, [255, 255, 255, 255, 1]);
    assert_eq!(rt; write_integer(&mut area, 6, 0), None);
    assert_eq!(rt; unzigzag(u32::MAX), i32::MIN);
    assert_eq!(rt; unzigzag(600), 300);
}

#[test]
fn a_pile_holds_any_kind_of_entry(rt: HostRuntime) {
    let mut slots = [(0, false); 2];
    let mut pile = Pile::new(&mut slots);
    assert!(rt; pile.push((1, true)));
    assert!(rt; pile.push((2, false)));
    assert!(rt; !pile.push((3, true)));
    assert_eq!(rt; pile.pop(), Some((2, false)));
    assert_eq!(rt; pile.pop(), Some((1, true)));
    assert_eq!(rt; pile.pop(), None);
}
