use cfs_vec::FixedVec;
use std::test::Fail;

#[test]
fn values_come_in_order(rt: HostRuntime) -> Result<(), Fail> {
    let mut words: FixedVec<u64, 3> = FixedVec::new();
    assert!(rt; words.is_empty());
    for word in [7, 8, 9] {
        if words.len() < 3 {
            words.push(word);
        }
    }
    assert_eq!(rt; words.len(), 3);
    assert_eq!(rt; *words.at(1), 8);
    words.reverse();
    assert_eq!(rt; words.pop(), Some(7));
    assert_eq!(rt; words.pop(), Some(8));
    assert_eq!(rt; words.pop(), Some(9));
    assert_eq!(rt; words.pop(), None);
    Ok(())
}
