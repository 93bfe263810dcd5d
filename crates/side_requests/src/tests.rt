use super::*;
use std::test::*;

#[test]
fn the_numbers_are_0_to_63(rt: HostRuntime) -> Result<(), Fail> {
    let mut book = AskBook::new();
    for number in 0..64u32 {
        assert_eq!(rt; book.next(), Some(number));
    }
    assert_eq!(rt; book.next(), None);
    assert_eq!(rt; book.next(), None);
    Ok(())
}
