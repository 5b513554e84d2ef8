// What a script's lines come to, by the words that the console would print for a mistake.
use crate::script::Script;
use std::alloc::{AllocError, Global};
use std::test::Fail;

// what is wrong with the line
fn wrong(heap: Global, script: &mut Script, line: &str) -> Result<Option<String>, AllocError> {
    match script.add(heap, line) {
        Ok(()) => Ok(None),
        Err(mistake) => Ok(Some(format!(in heap; "{mistake}")?)),
    }
}

#[test]
fn lines_that_are_no_calls(rt: HostRuntime) -> Result<(), Fail> {
    let heap = rt.alloc();
    let mut script = Script::new(heap);
    let cases = [
        ("carry 0 5", Some("not a call yet")),
        ("reverse 1", Some("not a call")),
        ("adopt +1", Some("a decimal number of 32 bits is wanted")),
        (
            "box 4294967296",
            Some("a decimal number of 32 bits is wanted"),
        ),
        ("put 0 0 256", Some("a byte is at most 255")),
        ("  # a comment", None),
        ("spare", None),
        (
            "box 1",
            Some("the pool and the box are set before the first call"),
        ),
    ];
    for (line, words) in cases {
        let told = wrong(heap, &mut script, line)?;
        assert_eq!(rt; told.as_ref().map(|told| told.as_str()), words);
    }
    Ok(())
}
