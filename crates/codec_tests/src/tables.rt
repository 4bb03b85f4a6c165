//! Whole lists: written from a table, read back, taken apart and written again.
use elements::types::ListFault;
use elements::{Coding, Dss1, Isup};
use lists::types::Apart;
use lists::{take_apart, write_list};
use std::process::Abort;
use std::test::Fail;
use writer::types::{Item, WriteFault};

#[test]
fn a_dss1_list_gives_back_its_table(rt: HostRuntime) -> Result<(), Fail> {
    let mut buf = [0xEE; 32];
    let items = [
        Item::Single(0xA1),
        Item::Element(0x00, &[0x01]),
        Item::Element(0x04, &[]),
        Item::Element(0x04, &[0x80, 0x90]),
        Item::Absent,
        Item::Element(0x7F, &[0x05]),
    ];
    let n = write_list(Dss1, &mut buf, &items)?;
    assert!(rt; n == 13);
    let list = &buf[0..n];
    assert_eq!(rt; elements::check::<Dss1>(list), Ok(13));
    assert_eq!(rt; elements::contents::<Dss1>(list, 0x00), Some(&list[3..4]));
    assert_eq!(rt; elements::contents::<Dss1>(list, 0x04), Some(&list[8..10]));
    assert_eq!(rt; elements::contents::<Dss1>(list, 0x7F), Some(&list[12..13]));
    assert_eq!(rt; elements::contents::<Dss1>(list, 0x05), None);
    assert_eq!(rt; elements::contents::<Dss1>(list, 0xA1), None);
    assert_eq!(rt; list[8], 0x80);
    Ok(())
}

#[test]
fn an_isup_list_gives_back_its_table(rt: HostRuntime) -> Result<(), Fail> {
    let mut buf = [0xEE; 32];
    let items = [
        Item::Element(0x03, &[0x07]),
        Item::Absent,
        Item::Element(0x80, &[0x80, 0x90]),
    ];
    let n = write_list(Isup, &mut buf, &items)?;
    assert!(rt; n == 8);
    let list = &buf[0..n];
    assert_eq!(rt; elements::check::<Isup>(list), Ok(8));
    assert_eq!(rt; elements::contents::<Isup>(list, 0x03), Some(&list[2..3]));
    assert_eq!(rt; elements::contents::<Isup>(list, 0x80), Some(&list[5..7]));
    assert_eq!(rt; elements::contents::<Isup>(list, 0x00), None);
    assert_eq!(rt; elements::contents::<Isup>(list, 0x04), None);
    assert_eq!(rt; buf[8], 0xEE);
    let bad = [Item::Element(0x03, &[0x07]), Item::Element(0x00, &[])];
    assert_eq!(rt; write_list(Isup, &mut buf, &bad), Err(WriteFault::NotATag));
    Ok(())
}

/// A list, what is said of it, and the octets that its elements are when they are written again.
#[derive(Clone, Copy)]
struct Case<'a> {
    list: &'a [u8],
    end: Result<usize, ListFault>,
    again: Result<&'a [u8], WriteFault>,
}

/// Checks what is said of a list that was taken apart, and its elements written again.
fn comes_out<C: Coding>(rt: &impl Abort, coding: C, case: Case<'_>, apart: Apart<'_>) {
    assert_eq!(rt; apart.end, case.end);
    let mut buf = [0xEE; 16];
    match write_list(coding, &mut buf, apart.items.as_slice()) {
        Ok(n) => {
            assert!(rt; n <= 16);
            assert_eq!(rt; Ok(&buf[0..n]), case.again);
        }
        Err(fault) => assert_eq!(rt; Err(fault), case.again),
    }
}

#[test]
fn a_dss1_list_taken_apart(rt: HostRuntime) -> Result<(), Fail> {
    let cases = [
        Case {
            list: &[],
            end: Ok(0),
            again: Ok(&[]),
        },
        Case {
            list: &[0xA1, 0x00, 0x01, 0x07, 0x80],
            end: Ok(5),
            again: Ok(&[0xA1, 0x00, 0x01, 0x07, 0x80]),
        },
        Case {
            list: &[0x04, 0x00, 0x05],
            end: Err(ListFault::BreaksOff(2)),
            again: Ok(&[0x04, 0x00]),
        },
        Case {
            list: &[0x04, 0x02, 0x01],
            end: Err(ListFault::BreaksOff(0)),
            again: Ok(&[]),
        },
        Case {
            list: &[0x05, 0x00, 0x04, 0x00],
            end: Ok(4),
            again: Err(WriteFault::OutOfOrder),
        },
    ];
    for case in cases {
        comes_out(&rt, Dss1, case, take_apart::<Dss1>(case.list, rt.alloc())?);
    }
    Ok(())
}

#[test]
fn an_isup_list_taken_apart(rt: HostRuntime) -> Result<(), Fail> {
    let cases = [
        Case {
            list: &[0x00, 0x05],
            end: Ok(1),
            again: Ok(&[0x00]),
        },
        Case {
            list: &[0x03, 0x01, 0x07, 0xFF, 0x00, 0x00, 0x09],
            end: Ok(6),
            again: Ok(&[0x03, 0x01, 0x07, 0xFF, 0x00, 0x00]),
        },
        // What is not whole is written again as far as it was, and then ended.
        Case {
            list: &[0x03, 0x01, 0x07],
            end: Err(ListFault::NoEnd(3)),
            again: Ok(&[0x03, 0x01, 0x07, 0x00]),
        },
        Case {
            list: &[0x03, 0x01, 0x07, 0x80],
            end: Err(ListFault::BreaksOff(3)),
            again: Ok(&[0x03, 0x01, 0x07, 0x00]),
        },
        Case {
            list: &[],
            end: Err(ListFault::NoEnd(0)),
            again: Ok(&[0x00]),
        },
    ];
    for case in cases {
        comes_out(&rt, Isup, case, take_apart::<Isup>(case.list, rt.alloc())?);
    }
    Ok(())
}
