use book::Book;
use commands::Order;
use model::Refusal;
use policies::{Never, Stale, Thorough};
use std::process::Abort;
use std::test::Fail;
use table::Setting;
use values::{Kind, Level};

// An order that writes the value 1 to the settings 0 and 1.
const TWO: [u8; 8] = [b'V', 0, 0, 1, b'V', 1, 0, 1];

// An order that names the setting 3 twice.
const TWICE: [u8; 8] = [b'V', 3, 0, 1, b'V', 3, 0, 1];

// An order as a stream of its own.
fn order(bytes: &[u8]) -> Order {
    Order { bytes, offset: 0 }
}

// An order of 65 entries, one for each setting from 0.
fn long_order() -> [u8; 260] {
    let mut bytes = [0; 260];
    for (i, entry) in bytes.chunks_exact_mut(4).enumerate() {
        entry[0] = b'V';
        entry[1] = i as u8;
    }
    bytes
}

// The number of a refusal.
fn refused(answer: Result<Book, Refusal>) -> Option<u8> {
    answer.err().map(|refusal| refusal.number())
}

#[test]
fn a_book_has_1_to_64_settings_and_1_to_32_active_jobs(rt: HostRuntime) {
    assert_eq!(rt; refused(Book::open::<Level>(64, 32)), None);
    assert_eq!(rt; refused(Book::open::<Level>(1, 1)), None);
    assert_eq!(rt; refused(Book::open::<Level>(0, 0)), Some(1));
    assert_eq!(rt; refused(Book::open::<Level>(65, 1)), Some(1));
    assert_eq!(rt; refused(Book::open::<Level>(1, 0)), Some(2));
    assert_eq!(rt; refused(Book::open::<Level>(1, 33)), Some(2));
}

// A book of 4 settings.
fn opened(limit: usize) -> Result<Book, Fail> {
    Ok(Book::open::<Level>(4, limit)?)
}

// A level that stands in its range.
fn level(value: u16) -> Result<Level, Fail> {
    Ok(Level::new(value).ok_or("a level")?)
}

#[test]
fn no_more_jobs_are_active_than_the_limit(rt: HostRuntime) -> Result<(), Fail> {
    let mut book = opened(32)?;
    for number in 1..33 {
        assert_eq!(rt; book.begin(&mut Never), Ok(number));
    }
    assert_eq!(rt; book.begin(&mut Never), Err(Refusal::ActiveLimit));
    assert_eq!(rt; book.withdraw(33), Err(Refusal::NotActive));
    assert_eq!(rt; book.withdraw(7), Ok(()));
    assert_eq!(rt; book.withdraw(7), Err(Refusal::NotActive));
    assert_eq!(rt; book.begin(&mut Never), Ok(33));
    Ok(())
}

#[test]
fn a_full_book_is_swept(rt: HostRuntime) -> Result<(), Fail> {
    let mut book = opened(1)?;
    for number in 1..65 {
        let mut row = [level(0)?; 4];
        assert_eq!(rt; book.begin(&mut Never), Ok(number));
        assert_eq!(rt; book.write(&mut row, number, order(&[])), Ok(()));
    }
    assert_eq!(rt; book.begin(&mut Never), Err(Refusal::BookFull));
    assert_eq!(rt; book.next_held(0), Some(1));
    assert_eq!(rt; book.held_jobs().count(), 64);
    assert_eq!(rt; book.finished_jobs().last(), Some(64));
    assert_eq!(rt; book.begin(&mut Thorough), Ok(65));
    assert_eq!(rt; book.next_held(0), Some(65));
    assert_eq!(rt; book.sweep(&mut Thorough), 0);
    Ok(())
}

// A book of 64 settings in which job 1 is active and has read the settings 0 to 62. Then as many jobs as asked for began
// and wrote one setting each: 2 wrote setting 0, 3 wrote setting 1, and so on.
fn read_by_one(rt: &impl Abort, writers: u8) -> Result<Book, Fail> {
    let mut book = Book::open::<Level>(64, 2)?;
    assert_eq!(rt; book.begin(&mut Never), Ok(1));
    for setting in 0..63 {
        assert!(rt; book.read(&[level(0)?; 64], 1, setting).is_ok());
    }
    for setting in 0..writers {
        let mut row = [level(0)?; 64];
        let number = u16::from(setting) + 2;
        assert_eq!(rt; book.begin(&mut Never), Ok(number));
        assert_eq!(rt;
            book.write(&mut row, number, order(&[b'V', setting, 0, 1])),
            Ok(())
        );
    }
    Ok(book)
}

#[test]
fn one_long_reader_can_fill_the_book(rt: HostRuntime) -> Result<(), Fail> {
    let mut full = read_by_one(&rt, 63)?;
    assert_eq!(rt; full.blocker(64), Ok(Some((1, 62))));
    assert_eq!(rt; full.begin(&mut Thorough), Err(Refusal::BookFull));
    let mut roomy = read_by_one(&rt, 62)?;
    assert_eq!(rt; roomy.begin(&mut Thorough), Ok(64));
    Ok(())
}

#[test]
fn an_order_has_at_most_64_entries(rt: HostRuntime) -> Result<(), Fail> {
    let mut book = Book::open::<Level>(64, 4)?;
    let mut row = [level(1)?; 64];
    let bytes = long_order();
    assert_eq!(rt; book.begin(&mut Never), Ok(1));
    assert_eq!(rt;
        book.write(&mut row, 1, order(&bytes)),
        Err(Refusal::OrderForm)
    );
    assert_eq!(rt;
        book.write(&mut row[0..63], 1, order(&bytes)),
        Err(Refusal::RowLength)
    );
    assert_eq!(rt; book.write(&mut row, 1, order(&bytes[0..256])), Ok(()));
    assert_eq!(rt; row[63].value(), 0);
    assert!(rt; book.has_written(1, 63));
    assert!(rt; !book.has_touched(1, 64));
    let last = Setting::new(63).ok_or("63 is a setting")?;
    assert!(rt; book.touched(1).contains(last));
    assert!(rt; !book.touched(2).contains(last));
    assert_eq!(rt;
        book.write(&mut row, 1, order(&[])),
        Err(Refusal::NotActive)
    );
    Ok(())
}

#[test]
fn the_first_bad_entry_is_named(rt: HostRuntime) -> Result<(), Fail> {
    let mut book = opened(4)?;
    let mut row = [level(0)?; 4];
    assert_eq!(rt; book.begin(&mut Never), Ok(1));
    assert_eq!(rt;
        book.write(&mut row, 1, order(&TWICE)),
        Err(Refusal::EntryRepeated(2))
    );
    assert_eq!(rt;
        book.write(&mut row, 1, order(&[b'V', 4, 9, 9])),
        Err(Refusal::EntrySetting(1))
    );
    assert_eq!(rt;
        book.write(&mut row, 1, order(&[b'V', 3, 9, 9])),
        Err(Refusal::EntryValue(1))
    );
    assert_eq!(rt;
        book.write(&mut row, 1, order(&TWO[0..7])),
        Err(Refusal::OrderForm)
    );
    assert_eq!(rt; book.write(&mut row, 1, order(&TWO)), Ok(()));
    assert_eq!(rt; row[1].value(), 1);
    assert_eq!(rt; row[2].value(), 0);
    Ok(())
}

#[test]
fn a_read_that_closes_a_circle_is_cut_off(rt: HostRuntime) -> Result<(), Fail> {
    let mut book = opened(4)?;
    let mut row = [level(0)?; 4];
    assert_eq!(rt; book.begin(&mut Never), Ok(1));
    assert_eq!(rt; book.begin(&mut Never), Ok(2));
    assert_eq!(rt; book.read(&row[0..3], 1, 0), Err(Refusal::RowLength));
    assert_eq!(rt; book.read(&row, 1, 4), Err(Refusal::NoSetting));
    assert!(rt; book.read(&row, 1, 0).is_ok());
    assert_eq!(rt; book.write(&mut row, 2, order(&TWO)), Ok(()));
    assert!(rt; book.joins(1, 2));
    assert!(rt; book.is_reached(2));
    assert!(rt; !book.may_forget(2));
    assert_eq!(rt; book.blocker(2), Ok(Some((1, 0))));
    assert_eq!(rt; book.blocker(1), Err(Refusal::NotFinished));
    assert_eq!(rt; book.read(&row, 1, 0), Err(Refusal::Circle));
    assert_eq!(rt; book.blocker(2), Ok(None));
    assert_eq!(rt; book.sweep(&mut Thorough), 1);
    Ok(())
}

#[test]
fn a_write_that_closes_a_circle_is_cut_off(rt: HostRuntime) -> Result<(), Fail> {
    let mut book = opened(4)?;
    let mut row = [level(0)?; 4];
    assert_eq!(rt; book.begin(&mut Never), Ok(1));
    assert_eq!(rt; book.begin(&mut Never), Ok(2));
    assert!(rt; book.read(&row, 1, 0).is_ok());
    assert!(rt; book.read(&row, 2, 1).is_ok());
    assert_eq!(rt; book.write(&mut row, 1, order(&TWO[4..8])), Ok(()));
    assert_eq!(rt;
        book.write(&mut row, 2, order(&TWO[0..4])),
        Err(Refusal::Circle)
    );
    assert_eq!(rt; row[0].value(), 0);
    assert_eq!(rt; book.next_held(1), None);
    Ok(())
}

#[test]
fn a_job_is_stale_when_all_that_it_wrote_is_written_after_it(rt: HostRuntime) -> Result<(), Fail> {
    let mut book = opened(1)?;
    let mut row = [level(0)?; 4];
    assert_eq!(rt; book.begin(&mut Never), Ok(1));
    assert_eq!(rt; book.write(&mut row, 1, order(&TWO)), Ok(()));
    assert_eq!(rt; book.begin(&mut Never), Ok(2));
    assert_eq!(rt; book.write(&mut row, 2, order(&TWO[0..4])), Ok(()));
    assert!(rt; !book.touched(1).is_within(book.written_after(1)));
    assert_eq!(rt; book.sweep(&mut Stale), 0);
    assert_eq!(rt; book.begin(&mut Never), Ok(3));
    assert_eq!(rt; book.write(&mut row, 3, order(&TWO[4..8])), Ok(()));
    assert_eq!(rt; book.sweep(&mut Stale), 1);
    assert_eq!(rt; book.next_held(0), Some(2));
    Ok(())
}

#[test]
fn the_last_number_is_65535(rt: HostRuntime) -> Result<(), Fail> {
    let mut book = opened(1)?;
    for number in 1..65_535 {
        assert_eq!(rt; book.begin(&mut Never), Ok(number));
        assert_eq!(rt; book.withdraw(number), Ok(()));
    }
    assert_eq!(rt; book.begin(&mut Never), Ok(65_535));
    assert_eq!(rt; book.withdraw(65_535), Ok(()));
    assert_eq!(rt; book.begin(&mut Never), Err(Refusal::NumbersSpent));
    Ok(())
}
