ghost use Rattle.std.specs.Prelude.{◌&&◌, nat_eq};
ghost use Rattle.table.specs.Slots.{passes};

use super::*;
use graph::{Graph, Place, PlaceSet};
use std::test::Fail;

// A job that has read and written nothing.
fn fresh(number: JobNumber) -> Job {
    Job {
        number,
        finished: false,
        reads: SettingSet::empty(),
        writes: SettingSet::empty(),
    }
}

// The set of the settings of these indexes.
fn settings(indexes: &[u8]) -> SettingSet {
    let mut set = SettingSet::empty();
    for setting in indexes.iter().filter_map(|index| Setting::new(*index)) {
        set.insert(setting);
    }
    set
}

// The place of an index.
fn at(index: usize) -> Result<Place, Fail> {
    Ok(Place::new(index).ok_or("no place")?)
}

#[test]
fn sets_of_settings(rt: HostRuntime) -> Result<(), Fail> {
    assert!(rt; Setting::new(64).is_none());
    let last = Setting::new(63).ok_or("63 is a setting")?;
    let small = settings(&[3, 0, 64]);
    let large = settings(&[63, 3]);
    assert!(rt; small.shares(large));
    assert!(rt; !settings(&[0]).shares(large));
    assert!(rt; !small.contains(last));
    assert!(rt; !large.is_within(small));
    assert!(rt; large.is_within(small.union(large)));
    assert!(rt; small.union(large).contains(last));
    assert!(rt; large.into_iter().map(|setting| setting.index()).eq([3, 63]));
    Ok(())
}

#[test]
fn jobs_by_number(rt: HostRuntime) -> Result<(), Fail> {
    let first = at(0)?;
    let last = at(63)?;
    let mut table = Table::new();
    table.enter(last, fresh(3));
    table.enter(first, fresh(5));
    assert_eq!(rt; table.place_of(3), Place::new(63));
    assert_eq!(rt; table.vacancy(), Place::new(1));
    assert_eq!(rt; table.least_above(table.held(), 0), Place::new(63));
    assert_eq!(rt; table.least_above(table.held(), 3), Place::new(0));
    assert_eq!(rt; table.least_above(table.held(), 5), None);
    table.remove(first);
    assert!(rt; table.job(first).is_none());
    assert_eq!(rt; table.held().len(), 1);
    Ok(())
}

#[test]
fn arrows_past_a_forgotten_job(rt: HostRuntime) -> Result<(), Fail> {
    let first = at(0)?;
    let second = at(1)?;
    let third = at(2)?;
    let setting = Setting::new(7).ok_or("7 is a setting")?;
    let mut table = Table::new();
    table.enter(first, fresh(1));
    table.enter(second, fresh(2));
    table.enter(third, fresh(3));
    table.finish(second, settings(&[7]), PlaceSet::only(first));
    assert!(rt; table.writers(setting).contains(second));
    table.note_read(third, setting, table.writers(setting));
    assert!(rt; table.touchers(settings(&[7])).len() == 2);
    assert!(rt; table.active().len() == 2 && table.finished().len() == 1);
    table.forget(second);
    assert!(rt; table.arrows().joins(first, third));
    assert!(rt; !table.arrows().joins(second, third));
    Ok(())
}

// A place whose job has the number that is asked for, and is finished.
#[derive(Drop)]
struct FinishedAs {
    number: JobNumber,
}

impl SlotTest for FinishedAs {
    ghost test = { λ t o. passes (λ j. j.finished && nat_eq j.number t.number) o };

    fn holds(&self, slot: &Option<Job>) -> bool {
        slot.is_some_and(|job| job.finished && job.number == self.number)
    }
}

#[test]
fn places_by_a_question_of_the_caller(rt: HostRuntime) -> Result<(), Fail> {
    let first = at(0)?;
    let last = at(63)?;
    let mut table = Table::new();
    table.enter(first, fresh(1));
    table.enter(last, fresh(2));
    table.finish(last, settings(&[7]), PlaceSet::empty());
    let mut found = table.places_where(&FinishedAs { number: 2 });
    assert_eq!(rt; found.take_first(), Some(last));
    assert_eq!(rt; found.len(), 0);
    assert_eq!(rt; table.places_where(&FinishedAs { number: 1 }).len(), 0);
    Ok(())
}
