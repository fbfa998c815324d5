use super::*;
use model::{Fault, Refusal};
use std::process::Abort;
use std::test::Fail;
use values::{Kind, Level, Plan};

// A begin, and then one command of each kind that has operands; the write has two entries.
const READ: [u8; 5] = [b'B', b'R', 0x01, 0x02, 3];

const WRITE: [u8; 13] = [b'B', b'W', 0, 7, 2, b'V', 0, 0, 1, b'V', 9, 3, 0xe8];

const WITHDRAW: [u8; 4] = [b'B', b'X', 0xff, 0xfe];

// The fault behind the begin at the start of a stream.
fn second_fault(rt: &impl Abort, bytes: &[u8]) -> Option<Fault> {
    let mut reader = Reader::<Level>::new(bytes);
    assert_eq!(rt; reader.next(), Some(Command::Begin));
    reader.fault()
}

#[test]
fn a_cut_command_is_named_by_its_first_byte(rt: HostRuntime) {
    for end in 2..READ.len() {
        assert_eq!(rt; second_fault(&rt, &READ[0..end]), Some(Fault::CutShort(1)));
    }
    for end in 2..WRITE.len() {
        assert_eq!(rt; second_fault(&rt, &WRITE[0..end]), Some(Fault::CutShort(1)));
    }
    for end in 2..WITHDRAW.len() {
        assert_eq!(rt;
            second_fault(&rt, &WITHDRAW[0..end]),
            Some(Fault::CutShort(1))
        );
    }
    assert_eq!(rt; second_fault(&rt, &[b'B']), None);
    assert_eq!(rt;
        second_fault(&rt, &[b'B', b'V', 0, 0, 1]),
        Some(Fault::NoLetter(1))
    );
    assert_eq!(rt; second_fault(&rt, &[b'B', 0]), Some(Fault::NoLetter(1)));
    assert_eq!(rt; second_fault(&rt, &READ), None);
    assert_eq!(rt; second_fault(&rt, &WITHDRAW), None);
}

#[test]
fn an_order_is_a_part_of_the_stream(rt: HostRuntime) -> Result<(), Fail> {
    let mut reader = Reader::<Level>::new(&WRITE);
    assert_eq!(rt; reader.next(), Some(Command::Begin));
    let write = reader.next().ok_or("a write")?;
    let order = Order {
        bytes: &WRITE[5..],
        offset: 5,
    };
    assert_eq!(rt; write, Command::Write { job: 7, order });
    assert_eq!(rt; order.bytes.len(), 8);
    assert_eq!(rt; order.entries::<Level>(), Some(2));
    assert_eq!(rt; reader.fault(), None);
    let mut out = [0u8; 13];
    assert_eq!(rt; write.write::<Level>(&mut out, 2), Err(Refusal::NoRoom));
    assert_eq!(rt; write.write::<Level>(&mut out, 1), Ok(13));
    assert_eq!(rt; &out[1..13], &WRITE[1..13]);
    Ok(())
}

#[test]
fn an_order_has_at_most_64_entries_each_with_its_letter(rt: HostRuntime) -> Result<(), Fail> {
    let mut bytes = [b'V'; 4 + 255 * 4];
    bytes[0] = b'W';
    bytes[3] = 255;
    let mut reader = Reader::<Level>::new(&bytes);
    let write = reader.next().ok_or("a write of 255 entries is read")?;
    let order = Order {
        bytes: &bytes[4..],
        offset: 4,
    };
    let job = u16::from_be_bytes([b'V', b'V']);
    assert_eq!(rt; write, Command::Write { job, order });
    assert_eq!(rt; order.bytes.len(), 255 * 4);
    assert_eq!(rt; order.entries::<Level>(), None);
    let mut out = [0u8; 2000];
    assert_eq!(rt; write.write::<Level>(&mut out, 0), Err(Refusal::OrderForm));
    let most = Order {
        bytes: &bytes[4..4 + 64 * 4],
        offset: 4,
    };
    assert_eq!(rt; most.entries::<Level>(), Some(64));
    let letterless = Order {
        bytes: &[b'V', 0, 0, 0, b'W', 1, 0, 0],
        offset: 0,
    };
    assert_eq!(rt; letterless.entries::<Level>(), None);
    let part = Order {
        bytes: &[b'V', 0, 0],
        offset: 0,
    };
    assert_eq!(rt; part.entries::<Level>(), None);
    Ok(())
}

// How many sweeps a stream begins with, and what is wrong behind them.
fn sweeps(bytes: &[u8]) -> (usize, Option<Fault>) {
    let mut reader = Reader::<Level>::new(bytes);
    let count = reader
        .by_ref()
        .take_while(|command| matches!(command, Command::Sweep))
        .count();
    (count, reader.fault())
}

#[test]
fn a_stream_has_at_most_65535_bytes(rt: HostRuntime) {
    let bytes = [b'S'; 65_536];
    assert_eq!(rt; sweeps(&bytes[0..0]), (0, None));
    assert_eq!(rt; sweeps(&bytes[0..65_535]), (65_535, None));
    assert_eq!(rt; sweeps(&bytes), (0, Some(Fault::TooLong)));
}

fn sends<T: Send>(_value: &T) {}

fn shares<T: Sync>(_value: &T) {}

// A reader may be sent and shared, whatever its kind is.
fn crosses<K: Kind>(reader: &Reader<'_, K>) {
    sends(reader);
    shares(reader);
}

#[test]
fn a_reader_goes_on_with_another_kind(rt: HostRuntime) {
    let bytes = [
        b'W', 0, 1, 1, b'V', 0, 3, 0xe8, b'W', 0, 2, 1, b'V', 0, 1, 0x68, 4, 0x38, 3, 0xe8, b'S',
    ];
    let mut levels = Reader::<Level>::new(&bytes);
    let order = Order {
        bytes: &bytes[4..8],
        offset: 4,
    };
    assert_eq!(rt; levels.next(), Some(Command::Write { job: 1, order }));
    crosses(&levels);
    let mut plans = levels.of_kind::<Plan>();
    let order = Order {
        bytes: &bytes[12..20],
        offset: 12,
    };
    assert_eq!(rt; plans.next(), Some(Command::Write { job: 2, order }));
    assert_eq!(rt; plans.next(), Some(Command::Sweep));
    assert_eq!(rt; plans.next(), None);
    assert_eq!(rt; plans.fault(), None);
    assert_eq!(rt;
        levels.next(),
        Some(Command::Write {
            job: 2,
            order: Order {
                bytes: &bytes[12..16],
                offset: 12
            }
        })
    );
    assert_eq!(rt; levels.fault(), Some(Fault::NoLetter(16)));
    assert_eq!(rt; levels.of_kind::<Plan>().fault(), Some(Fault::NoLetter(16)));
}
