use super::*;
use model::Refusal;
use std::test::Fail;

#[test]
fn levels_reach_from_0_to_1000(rt: HostRuntime) {
    assert_eq!(rt; <Level as Kind>::read(&[0, 0]), Level::new(0));
    assert_eq!(rt; <Level as Kind>::read(&[0x03, 0xe8]), Level::new(1000));
    assert!(rt; Level::new(1000).is_some());
    assert_eq!(rt; <Level as Kind>::read(&[0x03, 0xe9]), None);
    assert_eq!(rt; <Level as Kind>::read(&[0x03]), None);
    assert_eq!(rt; <Level as Kind>::read(&[0, 0, 0]), None);
}

#[test]
fn plans_end_by_minute_1439_and_after_they_begin(rt: HostRuntime) -> Result<(), Fail> {
    let full = Level::new(1000).ok_or("1000 is a level")?;
    let longest = Plan::new(0, 1439, full).ok_or("0 to 1439 is a plan")?;
    assert_eq!(rt;
        <Plan as Kind>::read(&[0, 0, 0x05, 0x9f, 0x03, 0xe8]),
        Some(longest)
    );
    assert_eq!(rt; longest.off(), 1439);
    assert_eq!(rt;
        <Plan as Kind>::read(&[0, 0, 0x05, 0xa0, 0, 0]),
        None,
        "off at 1440"
    );
    assert_eq!(rt;
        <Plan as Kind>::read(&[0x02, 0x58, 0x02, 0x58, 0, 0]),
        None,
        "on at off"
    );
    assert_eq!(rt;
        <Plan as Kind>::read(&[0, 0, 0, 1, 0x03, 0xe9]),
        None,
        "level 1001"
    );
    Ok(())
}

#[test]
fn writing_needs_room_and_leaves_the_rest(rt: HostRuntime) -> Result<(), Fail> {
    let dim = Level::new(300).ok_or("300 is a level")?;
    let mut out = [7u8; 4];
    assert_eq!(rt; dim.write(&mut out, 1), Ok(3));
    assert_eq!(rt; out, [7, 0x01, 0x2c, 7]);
    assert_eq!(rt; dim.write(&mut out, 3), Err(Refusal::NoRoom));
    assert_eq!(rt; dim.write(&mut out, usize::MAX), Err(Refusal::NoRoom));
    assert_eq!(rt; out, [7, 0x01, 0x2c, 7]);
    let plan = Plan::new(360, 1080, dim).ok_or("360 to 1080 is a plan")?;
    let mut six = [0u8; 6];
    assert_eq!(rt; plan.write(&mut six, 0), Ok(6));
    assert_eq!(rt; six, [0x01, 0x68, 0x04, 0x38, 0x01, 0x2c]);
    Ok(())
}

// The width of a kind, as generic code asks for it.
fn width<K: Kind>() -> usize {
    K::value_bytes()
}

#[test]
fn a_level_has_2_bytes_and_a_plan_6(rt: HostRuntime) {
    assert_eq!(rt; width::<Level>(), 2);
    assert_eq!(rt; width::<Plan>(), 6);
}
