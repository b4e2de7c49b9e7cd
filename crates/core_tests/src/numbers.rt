//! Numbers at both ends of a word.
use crate::asserted::equal;
use phase_modes::NumberSet;
use std::test::Fail;

#[test]
fn each_number_has_a_bit_of_its_own(rt: HostRuntime) -> Result<(), Fail> {
    let mut set = NumberSet::new(rt.alloc(), 130)?;
    for number in 0..130 {
        assert!(rt; !set.contains(number));
    }
    set.insert(63);
    set.insert(64);
    set.insert(129);
    for number in 0..130 {
        equal(
            &rt,
            set.contains(number),
            number == 63 || number == 64 || number == 129,
        );
    }
    Ok(())
}
