//! Dialled numbers: read from text, packed and unpacked.
use digits::{DigitFault, Digits, PackFault, unpack};
use std::process::Abort;
use std::test::Fail;

/// One digit more than a number has.
const TEXT: [u8; 21] = [
    48, 49, 50, 51, 52, 53, 54, 55, 56, 57, 48, 49, 50, 51, 52, 53, 54, 55, 56, 57, 48,
];

#[test]
fn numbers_of_every_length(rt: HostRuntime) {
    for n in 0..22 {
        let text = &TEXT[0..n];
        match Digits::read(text) {
            Ok(digits) => {
                assert!(rt; 1 <= n && n <= 20);
                assert_eq!(rt; digits.as_octets(), text);
                assert_eq!(rt; digits.len(), n);
            }
            Err(fault) => {
                let wanted = if n == 0 {
                    DigitFault::NoDigits
                } else {
                    DigitFault::TooMany
                };
                assert!(rt; n == 0 || n == 21);
                assert_eq!(rt; fault, wanted);
            }
        }
    }
}

fn stray(rt: &impl Abort, text: &[u8], fault: DigitFault) {
    assert_eq!(rt; Digits::read(text), Err(fault));
}

#[test]
fn characters_that_are_no_digits(rt: HostRuntime) {
    stray(&rt, b"/", DigitFault::NotADigit(0));
    stray(&rt, b"1:2", DigitFault::NotADigit(1));
    stray(&rt, b"12/:", DigitFault::NotADigit(2));
    stray(&rt, b"0123456789a", DigitFault::NotADigit(10));
    stray(&rt, b"Z9", DigitFault::NotADigit(0));
    stray(&rt, b"9 ", DigitFault::NotADigit(1));
    stray(&rt, b"1\x001", DigitFault::NotADigit(1));
    stray(&rt, b"0123456789012345678\xFF", DigitFault::NotADigit(19));
    // How many there are is judged first.
    stray(&rt, b"/01234567890123456789", DigitFault::TooMany);
}

#[test]
fn packed_numbers_come_back(rt: HostRuntime) -> Result<(), Fail> {
    for n in 1..21 {
        let digits = Digits::read(&TEXT[0..n])?;
        let mut out = [0xEE; 12];
        let length = digits.pack(&mut out)?;
        assert!(rt; length <= 11);
        assert_eq!(rt; length, n / 2 + 1);
        assert_eq!(rt; length, digits.packed_len());
        assert_eq!(rt; digits.signals_odd(), n % 2 == 0);
        assert_eq!(rt; out[length], 0xEE);
        assert_eq!(rt; unpack(&out[0..length], digits.signals_odd()), Ok(digits));
        let mut short = [0xEE; 12];
        assert!(rt; length >= 1);
        assert_eq!(rt;
            digits.pack(&mut short[0..length - 1]),
            Err(PackFault::NoRoom)
        );
        assert_eq!(rt; short, [0xEE; 12]);
    }
    Ok(())
}

fn packs(rt: &impl Abort, text: &[u8], octets: &[u8]) -> Result<(), Fail> {
    let digits = Digits::read(text)?;
    let mut out = [0xEE; 11];
    let length = digits.pack(&mut out)?;
    assert!(rt; length <= 11);
    assert_eq!(rt; &out[0..length], octets);
    Ok(())
}

#[test]
fn signals_two_to_an_octet(rt: HostRuntime) -> Result<(), Fail> {
    packs(&rt, b"7", &[0xF7])?;
    packs(&rt, b"12", &[0x21, 0x0F])?;
    packs(&rt, b"123", &[0x21, 0xF3])?;
    packs(&rt, b"9080", &[0x09, 0x08, 0x0F])
}

fn unpacks(rt: &impl Abort, octets: &[u8], odd: bool, text: &[u8]) -> Result<(), Fail> {
    let digits = unpack(octets, odd)?;
    assert_eq!(rt; digits.as_octets(), text);
    Ok(())
}

#[test]
fn packed_signals_are_read(rt: HostRuntime) -> Result<(), Fail> {
    unpacks(&rt, &[0x21, 0x43], false, b"1234")?;
    unpacks(&rt, &[0x21, 0xF3], false, b"123")?;
    unpacks(&rt, &[0x21, 0x0F], true, b"12")?;
    // The spare half may hold anything.
    unpacks(&rt, &[0x21, 0x03], true, b"123")?;
    unpacks(&rt, &[0x21, 0xF3], true, b"123")?;
    unpacks(&rt, &[0x21, 0xA3], true, b"123")?;
    unpacks(&rt, &[0x21, 0xFF], true, b"12")?;
    unpacks(
        &rt,
        &[0x10, 0x32, 0x54, 0x76, 0x98, 0x10, 0x32, 0x54, 0x76, 0x98],
        false,
        b"01234567890123456789",
    )
}

fn unpack_fails(rt: &impl Abort, octets: &[u8], odd: bool, fault: DigitFault) {
    assert_eq!(rt; unpack(octets, odd), Err(fault));
}

#[test]
fn packed_signals_are_refused(rt: HostRuntime) {
    unpack_fails(&rt, &[], false, DigitFault::NoDigits);
    unpack_fails(&rt, &[], true, DigitFault::NoDigits);
    unpack_fails(&rt, &[0x0F], true, DigitFault::NoDigits);
    // Only one final end signal is left off.
    unpack_fails(&rt, &[0xFF], false, DigitFault::NotADigit(0));
    unpack_fails(&rt, &[0x21, 0xFF], false, DigitFault::NotADigit(2));
    unpack_fails(&rt, &[0xF1, 0x0F], true, DigitFault::NotADigit(1));
    unpack_fails(&rt, &[0x1F, 0x32], false, DigitFault::NotADigit(0));
    unpack_fails(&rt, &[0x21, 0xA3], false, DigitFault::NotADigit(3));
    // 21 and 22 digits, and far more octets than a number has.
    unpack_fails(&rt, &[0x11; 11], true, DigitFault::TooMany);
    unpack_fails(&rt, &[0x11; 11], false, DigitFault::TooMany);
    unpack_fails(&rt, &[0xF1; 12], false, DigitFault::TooMany);
    unpack_fails(&rt, &[0x11; 255], true, DigitFault::TooMany);
    unpack_fails(&rt, &[0x11; 700], false, DigitFault::TooMany);
}
