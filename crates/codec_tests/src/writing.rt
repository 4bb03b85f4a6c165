//! Messages as they are written, step by step.
use elements::{Coding, Dss1, Isup};
use std::process::Abort;
use std::test::Fail;
use writer::types::{Item, WriteFault};
use writer::{Listing, Open};

/// What a buffer holds before anything is written.
const BLANK: u8 = 0xEE;

/// Checks that these octets stand in front, and that those behind them are as they were.
fn stands(rt: &impl Abort, buf: &[u8], written: &[u8]) {
    let n = written.len();
    assert!(rt; n <= buf.len());
    assert_eq!(rt; &buf[0..n], written);
    for octet in &buf[n..] {
        assert_eq!(rt; *octet, BLANK);
    }
}

/// What stood against a step; a message that goes on is given up.
fn fault<C: Coding>(step: Result<Listing<C>, WriteFault>) -> Option<WriteFault> {
    step.map(|listing| listing.abandon()).err()
}

/// Every step of a DSS 1 message.
fn dss1_steps(buf: &mut [u8]) -> Result<usize, WriteFault> {
    let listing = Open::begin().octets(buf, &[0x08, 0x01])?.list(Dss1);
    let listing = listing.element(buf, 0x04, &[0x80, 0x90])?;
    let listing = listing.single(buf, 0xA1)?;
    Ok(listing.close(buf)?.length())
}

/// Every step of an ISUP message, with a DSS 1 list inside a parameter.
fn isup_steps(buf: &mut [u8]) -> Result<usize, WriteFault> {
    let listing = Open::begin().list(Isup).element(buf, 0x03, &[0x07])?;
    let items = [
        Item::Element(0x04, &[0x90]),
        Item::Absent,
        Item::Single(0xA1),
    ];
    let listing = listing.nest(buf, 0x1E, Dss1, &items)?;
    Ok(listing.close(buf)?.length())
}

/// A table behind a fixed octet, all of it or nothing.
fn table_step(buf: &mut [u8]) -> Result<usize, WriteFault> {
    let items = [
        Item::Element(0x04, &[0x90]),
        Item::Absent,
        Item::Element(0xF0, &[]),
    ];
    let listing = Open::begin().octets(buf, &[0x01])?.list(Isup);
    Ok(listing.close_with(buf, &items)?.length())
}

const DSS1_MESSAGE: [u8; 7] = [0x08, 0x01, 0x04, 0x02, 0x80, 0x90, 0xA1];

const ISUP_MESSAGE: [u8; 10] = [0x03, 0x01, 0x07, 0x1E, 0x04, 0x04, 0x01, 0x90, 0xA1, 0x00];

const TABLE: [u8; 7] = [0x01, 0x04, 0x01, 0x90, 0xF0, 0x00, 0x00];

/// Writes a message into a buffer of each size: there stand the steps that fit whole, and no octet of the next one.
fn needs_room<F: Fn(&mut [u8]) -> Result<usize, WriteFault>>(
    rt: &impl Abort,
    steps: F,
    message: &[u8],
    reaches: &[usize],
)
    requires { F.IsAlwaysCallable steps }
{
    for (size, reach) in reaches.iter().enumerate() {
        let mut buf = [BLANK; 11];
        assert!(rt; size <= 11 && *reach <= message.len());
        let wanted = if size < message.len() {
            Err(WriteFault::NoRoom)
        } else {
            Ok(message.len())
        };
        let room = &mut buf[0..size];
        assert_eq!(rt; steps(room), wanted);
        stands(rt, room, &message[0..*reach]);
    }
}

#[test]
fn dss1_steps_need_room(rt: HostRuntime) {
    let reaches = [0, 0, 2, 2, 2, 2, 6, 7, 7];
    needs_room(&rt, dss1_steps, &DSS1_MESSAGE, &reaches);
}

#[test]
fn isup_steps_need_room(rt: HostRuntime) {
    let reaches = [0, 0, 0, 3, 3, 3, 3, 3, 3, 9, 10, 10];
    needs_room(&rt, isup_steps, &ISUP_MESSAGE, &reaches);
}

#[test]
fn a_table_needs_room(rt: HostRuntime) {
    let reaches = [0, 1, 1, 1, 1, 1, 1, 7, 7];
    needs_room(&rt, table_step, &TABLE, &reaches);
}

#[test]
fn a_nested_list_is_read_back(rt: HostRuntime) -> Result<(), Fail> {
    let mut buf = [BLANK; 16];
    let length = isup_steps(&mut buf)?;
    assert!(rt; length <= 16);
    let outer = elements::contents::<Isup>(&buf[0..length], 0x1E).ok_or("no parameter")?;
    assert_eq!(rt; outer, &ISUP_MESSAGE[5..9]);
    let inner = elements::contents::<Dss1>(outer, 0x04).ok_or("no element")?;
    assert_eq!(rt; inner, &ISUP_MESSAGE[7..8]);
    assert_eq!(rt; elements::find::<Dss1>(outer, 0xA1), None);
    assert_eq!(rt; elements::find::<Isup>(&buf[0..length], 0x03), Some(0));
    Ok(())
}

/// Elements that stand behind one with the tag 04: their tags, and what stands against each.
fn behind_04<C: Coding>(
    rt: &impl Abort,
    coding: C,
    cases: &[(u8, Option<WriteFault>)],
) -> Result<(), Fail> {
    for (tag, wanted) in cases {
        let mut buf = [BLANK; 8];
        let listing = Open::begin().list(coding).element(&mut buf, 0x04, &[0x01])?;
        assert_eq!(rt; fault(listing.element(&mut buf, *tag, &[0x02])), *wanted);
        match wanted {
            Some(_) => stands(rt, &buf, &[0x04, 0x01, 0x01]),
            None => stands(rt, &buf, &[0x04, 0x01, 0x01, *tag, 0x01, 0x02]),
        }
    }
    Ok(())
}

/// What stands against an element of one octet in an empty list.
fn single_fault<C: Coding>(coding: C, tag: u8) -> Option<WriteFault> {
    let mut buf = [BLANK; 8];
    fault(Open::begin().list(coding).single(&mut buf, tag))
}

#[test]
fn dss1_tags(rt: HostRuntime) -> Result<(), Fail> {
    let cases = [
        (0x00, Some(WriteFault::OutOfOrder)),
        (0x03, Some(WriteFault::OutOfOrder)),
        (0x04, None),
        (0x7F, None),
        (0x80, Some(WriteFault::NotATag)),
        (0xFF, Some(WriteFault::NotATag)),
    ];
    behind_04(&rt, Dss1, &cases)?;
    for (tag, _) in cases {
        let wanted = (tag < 0x80).then_some(WriteFault::NotATag);
        assert_eq!(rt; single_fault(Dss1, tag), wanted);
    }
    Ok(())
}

#[test]
fn isup_tags(rt: HostRuntime) -> Result<(), Fail> {
    let cases = [
        (0x00, Some(WriteFault::NotATag)),
        (0x03, Some(WriteFault::OutOfOrder)),
        (0x04, None),
        (0x80, None),
        (0xFF, None),
    ];
    behind_04(&rt, Isup, &cases)?;
    for (tag, _) in cases {
        assert_eq!(rt; single_fault(Isup, tag), Some(WriteFault::NotATag));
    }
    Ok(())
}

/// How an element of so many octets goes, and a list that is as long and nested in one.
fn long(rt: &impl Abort, n: usize, wanted: Option<WriteFault>) {
    let mut buf = [BLANK; 300];
    let contents = [0x55; 256];
    assert!(rt; 2 <= n && n <= 256);
    let listing = Open::begin().list(Isup);
    let items = [Item::Element(0x04, &contents[0..n - 2])];
    assert_eq!(rt; fault(listing.nest(&mut buf, 0x1E, Dss1, &items)), wanted);
    if wanted.is_some() {
        stands(rt, &buf, &[]);
    }
    let listing = Open::begin().list(Dss1);
    assert_eq!(rt;
        fault(listing.element(&mut buf, 0x04, &contents[0..n])),
        wanted
    );
}

#[test]
fn a_length_octet_tells_255(rt: HostRuntime) {
    long(&rt, 254, None);
    long(&rt, 255, None);
    long(&rt, 256, Some(WriteFault::TooLong));
}
