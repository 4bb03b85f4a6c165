//! Causes, progress, bearer capabilities and types of number.
use values::{BearerFault, Capability, NumberType, bearer, cause, number_type, progress};

#[test]
fn causes(rt: HostRuntime) {
    assert_eq!(rt; cause(&[]), None);
    assert_eq!(rt; cause(&[0x80]), None);
    assert_eq!(rt; cause(&[0x00]), None);
    assert_eq!(rt; cause(&[0x80, 0x90]), Some((0, 16)));
    assert_eq!(rt; cause(&[0xFF, 0x7F, 0x01]), Some((15, 127)));
    // Bit 8 of the first octet is 0: an extension octet comes between.
    assert_eq!(rt; cause(&[0x02, 0x90]), None);
    assert_eq!(rt; cause(&[0x02, 0x80, 0x91]), Some((2, 17)));
    assert_eq!(rt; cause(&[0x7F, 0x00, 0xFF, 0x01]), Some((15, 127)));
}

#[test]
fn progress_indicators(rt: HostRuntime) {
    assert_eq!(rt; progress(&[]), None);
    assert_eq!(rt; progress(&[0x82]), None);
    assert_eq!(rt; progress(&[0x82, 0x88]), Some((2, 8)));
    assert_eq!(rt; progress(&[0x02, 0x08, 0x84]), Some((2, 8)));
    assert_eq!(rt; progress(&[0xFF, 0xFF]), Some((15, 127)));
}

#[test]
fn bearers(rt: HostRuntime) {
    assert_eq!(rt; bearer(&[]), Err(BearerFault::TooShort));
    assert_eq!(rt; bearer(&[0x81]), Err(BearerFault::TooShort));
    assert_eq!(rt; bearer(&[0x80, 0x90]), Ok(Capability::Speech));
    assert_eq!(rt; bearer(&[0x88, 0x90]), Ok(Capability::Unrestricted));
    assert_eq!(rt; bearer(&[0x90, 0x90, 0xA3]), Ok(Capability::Audio));
    assert_eq!(rt; bearer(&[0x81, 0x90]), Err(BearerFault::Capability(1)));
    assert_eq!(rt; bearer(&[0x9F, 0x90]), Err(BearerFault::Capability(31)));
    assert_eq!(rt; bearer(&[0x08; 11]), Ok(Capability::Unrestricted));
    assert_eq!(rt; bearer(&[0x88; 12]), Err(BearerFault::TooLong));
    // How long it is is judged first.
    assert_eq!(rt; bearer(&[0x81; 12]), Err(BearerFault::TooLong));
}

/// The types by their codes 0 to 7, in an octet with and without bit 8 and with any numbering plan.
#[test]
fn types_of_number(rt: HostRuntime) {
    let types = [
        Some(NumberType::Unknown),
        Some(NumberType::International),
        Some(NumberType::National),
        None,
        Some(NumberType::Subscriber),
        None,
        None,
        None,
    ];
    for (code, wanted) in (0u8..8).zip(types) {
        assert!(rt; code < 8);
        assert_eq!(rt; number_type(16 * code), wanted);
        assert_eq!(rt; number_type(128 + 16 * code + 1), wanted);
        assert_eq!(rt; number_type(128 + 16 * code + 15), wanted);
        if let Some(kind) = wanted {
            assert_eq!(rt; kind.code(), code);
        }
    }
}

#[test]
fn natures_of_address(rt: HostRuntime) {
    let types = [
        None,
        Some(NumberType::Subscriber),
        Some(NumberType::Unknown),
        Some(NumberType::National),
        Some(NumberType::International),
        None,
    ];
    for (nature, wanted) in (0u8..6).zip(types) {
        assert_eq!(rt; NumberType::from_nature(nature), wanted);
        if let Some(kind) = wanted {
            assert_eq!(rt; kind.nature(), nature);
        }
    }
    assert_eq!(rt; NumberType::from_nature(255), None);
}
