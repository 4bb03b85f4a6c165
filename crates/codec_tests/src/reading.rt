//! Lists of elements as they are read.
use elements::types::ListFault;
use elements::{Coding, Dss1, Isup};
use std::array;
use std::process::Abort;

/// Checks where a tag is found in a list, and with what contents.
fn finds<C: Coding>(rt: &impl Abort, list: &[u8], tag: u8, found: Option<(usize, &[u8])>) {
    let place = elements::find::<C>(list, tag);
    let contents = elements::contents::<C>(list, tag);
    assert_eq!(rt; place.is_some(), contents.is_some());
    assert_eq!(rt; place.zip(contents), found);
}

#[test]
fn dss1_elements_are_found(rt: HostRuntime) {
    finds::<Dss1>(&rt, &[], 0x04, None);
    finds::<Dss1>(&rt, &[0x04], 0x04, None);
    finds::<Dss1>(&rt, &[0x04, 0x00], 0x04, None);
    finds::<Dss1>(&rt, &[0x04, 0x02, 0x80], 0x04, None);
    // Tag 00 is an element like any other, and what follows it is read.
    finds::<Dss1>(
        &rt,
        &[0x00, 0x01, 0x07, 0x04, 0x01, 0x05],
        0x00,
        Some((0, &[0x07])),
    );
    finds::<Dss1>(
        &rt,
        &[0x00, 0x01, 0x07, 0x04, 0x01, 0x05],
        0x04,
        Some((3, &[0x05])),
    );
    // From 80 hex on a tag is a whole element, and has no contents to be found.
    finds::<Dss1>(
        &rt,
        &[0xA1, 0x04, 0x01, 0x90, 0x80],
        0x04,
        Some((1, &[0x90])),
    );
    finds::<Dss1>(&rt, &[0xA1, 0x04, 0x01, 0x90, 0x80], 0xA1, None);
    finds::<Dss1>(&rt, &[0x80, 0x01, 0x07], 0x80, None);
    // The first that holds an octet.
    finds::<Dss1>(
        &rt,
        &[
            0x04, 0x00, 0x05, 0x01, 0x33, 0x04, 0x01, 0x11, 0x04, 0x01, 0x22,
        ],
        0x04,
        Some((5, &[0x11])),
    );
}

#[test]
fn isup_elements_are_found(rt: HostRuntime) {
    finds::<Isup>(&rt, &[], 0x04, None);
    finds::<Isup>(&rt, &[0x04], 0x04, None);
    finds::<Isup>(&rt, &[0x00], 0x00, None);
    finds::<Isup>(&rt, &[0x00, 0x01, 0x07], 0x00, None);
    // Without an end tag what is whole is still found.
    finds::<Isup>(&rt, &[0x04, 0x01, 0x11], 0x04, Some((0, &[0x11])));
    // Nothing is read behind the end tag.
    finds::<Isup>(&rt, &[0x04, 0x01, 0x11, 0x00, 0x05, 0x01, 0x22], 0x05, None);
    // A tag of 80 hex or more has a length.
    finds::<Isup>(
        &rt,
        &[0x80, 0x01, 0x04, 0xFF, 0x02, 0x05, 0x06, 0x00],
        0x80,
        Some((0, &[0x04])),
    );
    finds::<Isup>(
        &rt,
        &[0x80, 0x01, 0x04, 0xFF, 0x02, 0x05, 0x06, 0x00],
        0xFF,
        Some((3, &[0x05, 0x06])),
    );
    finds::<Isup>(
        &rt,
        &[0x04, 0x00, 0x04, 0x01, 0x11, 0x04, 0x01, 0x22, 0x00],
        0x04,
        Some((2, &[0x11])),
    );
}

/// Two elements; the second begins at place 4.
const TWO: [u8; 7] = [0x04, 0x02, 0x80, 0x90, 0x6C, 0x01, 0x31];

/// Checks the list cut at each octet: what is said of it, and which of the two elements is found.
fn cuts<C: Coding>(rt: &impl Abort, verdicts: &[Result<usize, ListFault>; 8]) {
    for (n, verdict) in verdicts.iter().enumerate() {
        assert!(rt; n <= 7);
        let list = &TWO[0..n];
        assert_eq!(rt; elements::check::<C>(list), *verdict);
        assert_eq!(rt; elements::find::<C>(list, 0x04).is_some(), n >= 4);
        assert_eq!(rt; elements::contents::<C>(list, 0x6C).is_some(), n == 7);
    }
}

#[test]
fn a_list_cut_short(rt: HostRuntime) {
    let first = Err(ListFault::BreaksOff(0));
    let second = Err(ListFault::BreaksOff(4));
    cuts::<Dss1>(
        &rt,
        &[Ok(0), first, first, first, Ok(4), second, second, Ok(7)],
    );
    cuts::<Isup>(
        &rt,
        &[
            Err(ListFault::NoEnd(0)),
            first,
            first,
            first,
            Err(ListFault::NoEnd(4)),
            second,
            second,
            Err(ListFault::NoEnd(7)),
        ],
    );
}

#[test]
fn a_list_is_whole(rt: HostRuntime) {
    assert_eq!(rt; elements::check::<Dss1>(&[0xA1]), Ok(1));
    assert_eq!(rt;
        elements::check::<Dss1>(&[0x00]),
        Err(ListFault::BreaksOff(0))
    );
    assert_eq!(rt; elements::check::<Dss1>(&[0x00, 0x00]), Ok(2));
    assert_eq!(rt; elements::check::<Dss1>(&[0x80, 0xFF, 0x04, 0x00]), Ok(4));
    assert_eq!(rt; elements::check::<Isup>(&[0x00]), Ok(1));
    assert_eq!(rt;
        elements::check::<Isup>(&[0xA1]),
        Err(ListFault::BreaksOff(0))
    );
    assert_eq!(rt;
        elements::check::<Isup>(&[0x80, 0xFF, 0x04, 0x00]),
        Err(ListFault::BreaksOff(0))
    );
    assert_eq!(rt;
        elements::check::<Isup>(&[0x04, 0x01, 0x11, 0x00, 0x05, 0x09]),
        Ok(4)
    );
}

/// 255 elements of one tag, all empty, and the end tag of ISUP.
fn many() -> [u8; 512] {
    array::from_fn(|i| if i < 510 && i % 2 == 0 { 0x04 } else { 0x00 })
}

#[test]
fn many_elements_of_one_tag(rt: HostRuntime) {
    let mut list = many();
    assert_eq!(rt; elements::find::<Isup>(&list, 0x04), None);
    assert_eq!(rt; elements::check::<Dss1>(&list[0..510]), Ok(510));
    assert_eq!(rt; elements::check::<Isup>(&list), Ok(511));
    // The last of them holds an octet.
    list[509] = 0x01;
    list[510] = 0x77;
    assert_eq!(rt; elements::find::<Isup>(&list, 0x04), Some(508));
    assert_eq!(rt;
        elements::contents::<Dss1>(&list, 0x04),
        Some(&list[510..511])
    );
    assert_eq!(rt; elements::check::<Dss1>(&list[0..511]), Ok(511));
    assert_eq!(rt; elements::check::<Isup>(&list), Ok(512));
    // The first holds octets too, and wins.
    list[1] = 0x02;
    assert_eq!(rt; elements::contents::<Isup>(&list, 0x04), Some(&list[2..4]));
}
