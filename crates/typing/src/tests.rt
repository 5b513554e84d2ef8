use crate::rules::{Maker, rule_of};
use tables::listing::{Kind, Node};

// The form that the rule of the kind asks for, by a letter. N and diamond need none: that no rule asks for them is what proves the last line unreachable.
fn letter(kind: Kind) -> u8 {
    match rule_of(Node { kind, number: 0 }).form {
        None => b'-',
        Some(Maker::List) => b'l',
        Some(Maker::Tree) => b't',
        Some(Maker::Pair) => b'p',
        Some(Maker::Sum) => b's',
        Some(Maker::Number | Maker::Diamond) => unreachable!(),
    }
}

// What is made and what is taken apart has a form; names, numbers, arithmetic and guards ask for none.
#[test]
fn rules_ask_for_the_form_of_what_is_made(rt: HostRuntime) {
    let formless = [
        Kind::Variable,
        Kind::Call,
        Kind::Constant,
        Kind::Infix,
        Kind::Guard,
    ];
    assert_eq!(rt; formless.map(letter), *b"-----");
    let pairs_and_sums = [
        Kind::MakePair,
        Kind::SplitPair,
        Kind::MakeLeft,
        Kind::MakeRight,
        Kind::CaseSum,
    ];
    assert_eq!(rt; pairs_and_sums.map(letter), *b"ppsss");
    let lists_and_trees = [
        Kind::EmptyList,
        Kind::MakeCons,
        Kind::CaseList,
        Kind::MakeLeaf,
        Kind::MakeNode,
        Kind::CaseTree,
    ];
    assert_eq!(rt; lists_and_trees.map(letter), *b"lllttt");
}
