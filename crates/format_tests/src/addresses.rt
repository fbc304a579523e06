// What both formats' addressings fix, and some sectors by number and by address.
use format::{Address, Addressing, address_of, number_of};
use maps::Maps;
use pointers::Pointers;

fn at(track: i32, sector: u32) -> Address {
    Address { track, sector }
}

#[test]
fn constants(rt: HostRuntime) {
    assert_eq!(rt; <Pointers as format::Addressing>::SECTORS_PER_TRACK, 31);
    assert_eq!(rt; <Pointers as format::Addressing>::FIRST_TRACK, 0);
    assert_eq!(rt; <Maps as format::Addressing>::SECTORS_PER_TRACK, 32);
    assert_eq!(rt; <Maps as format::Addressing>::FIRST_TRACK, -2);
}

#[test]
fn edges(rt: HostRuntime) {
    assert_eq!(rt; number_of::<Pointers>(at(1, 15)), Some(46));
    assert_eq!(rt; address_of::<Pointers>(46), Some(at(1, 15)));
    assert_eq!(rt; number_of::<Pointers>(at(1, 31)), None);
    assert_eq!(rt; number_of::<Pointers>(at(20_000, 0)), None);
    assert_eq!(rt; number_of::<Maps>(at(-2, 0)), Some(0));
    assert_eq!(rt; address_of::<Maps>(703), Some(at(19, 31)));
    assert_eq!(rt; number_of::<Maps>(at(-3, 0)), None);
    assert_eq!(rt; address_of::<Maps>(640_064), None);
}
