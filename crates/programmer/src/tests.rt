use crate::Programmer;
use codec::fault::Fault;
use pool::own::OwnPool;

// The number and the place of a refusal; none where there is none.
fn told<T: Drop>(res: Result<T, Fault>) -> Option<(u8, usize)> {
    res.err().map(Fault::number_and_place)
}

#[test]
fn a_list_is_put_shown_and_emptied(rt: HostRuntime) {
    // types N and list of N, and a routine that gives its list back
    let table = [2, 0, 2, 0, 1, 1, 1, 1, 0, 0];
    // the list of 7 and -1
    let list = [1, 14, 1, 1, 0];
    let mut programmer = Programmer::new(OwnPool::new(), 5);
    assert_eq!(rt; told(programmer.put(3, 1, &list)), Some((12, 0)));
    assert_eq!(rt; told(programmer.adopt(&table)), None);
    assert_eq!(rt; told(programmer.put(3, 1, &list)), None);
    assert_eq!(rt; programmer.spare(), 62);
    assert_eq!(rt; told(programmer.adopt(&table)), Some((20, 3)));
    let mut short = [9; 4];
    assert_eq!(rt; told(programmer.show(3, &mut short)), Some((18, 0)));
    let mut area = [9; 6];
    assert_eq!(rt; programmer.show(3, &mut area).ok(), Some(5));
    assert_eq!(rt; area, [1, 14, 1, 1, 0, 9]);
    assert_eq!(rt; told(programmer.empty(3)), None);
    assert_eq!(rt; told(programmer.empty(3)), Some((14, 0)));
    assert_eq!(rt; programmer.spare(), 64);
}
