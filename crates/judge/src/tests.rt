use crate::admit::admit;
use codec::fault::Fault;
use std::test::Fail;
use typing::codes::Code;

// Reverse with its helper first: its one case binds a diamond that the table does not list.
#[test]
fn reverse_is_admitted(rt: HostRuntime) -> Result<(), Fail> {
    let bytes =
        b"\x02\x00\x02\x00\x02\x02\x01\x01\x01\x01\x01\x01\x0c\x00\x00\x00\x01\x01\x00\x00\x04\x0b\x00\x02\x00\x03\x00\x01\x01\x00\x00\x00\x0a\x01";
    let table = admit(bytes)?;
    // the helper's body has nine expressions, and the element that its case binds lies over two lists and a diamond
    assert_eq!(rt; table.start(1), 9);
    assert_eq!(rt; table.note(0).end, 9);
    assert_eq!(rt; table.note(6).code, Code::Diamond);
    assert_eq!(rt; table.note(7).place, 3);
    Ok(())
}

// A list taken apart and put together again. The body stands over its one parameter, and the arm without an element too; the other arm stands over four words, since
// it binds a diamond, an element and a tail; its last part stands over the two parts before it besides.
#[test]
fn notes_tell_the_words_below(rt: HostRuntime) -> Result<(), Fail> {
    let bytes = b"\x02\x00\x02\x00\x01\x01\x01\x01\x0c\x00\x00\x0a\x01\x0b\x00\x01\x00\x02\x00\x03";
    let table = admit(bytes)?;
    assert_eq!(rt; [0, 2, 3, 6].map(|at| table.note(at).over), [1, 1, 4, 6]);
    Ok(())
}

// A list used twice in a pair; a number may be.
#[test]
fn sharing_is_refused(rt: HostRuntime) {
    assert_eq!(rt;
        admit(b"\x03\x00\x02\x00\x04\x01\x01\x01\x01\x01\x02\x05\x02\x00\x00\x00\x00")
            .err()
            .map(Fault::number_and_place),
        Some((10, 0))
    );
    assert_eq!(rt;
        admit(b"\x02\x00\x04\x00\x00\x01\x01\x00\x01\x05\x01\x00\x00\x00\x00")
            .err()
            .map(Fault::number_and_place),
        None
    );
}

// A guard by a list whose first arm adds a list: the arm's fault comes first. A choice by the kind of its first part is refused before its arms.
#[test]
fn an_arm_comes_before_its_whole(rt: HostRuntime) {
    assert_eq!(rt;
        admit(b"\x02\x00\x02\x00\x01\x00\x00\x04\x0a\x01\x03\x00\x0a\x01\x02\x00\x02\x00")
            .err()
            .map(Fault::number_and_place),
        Some((9, 2))
    );
    assert_eq!(rt;
        admit(b"\x02\x00\x02\x00\x01\x00\x00\x0c\x02\x00\x03\x00\x0a\x01\x02\x00\x02\x00")
            .err()
            .map(Fault::number_and_place),
        Some((9, 0))
    );
}
