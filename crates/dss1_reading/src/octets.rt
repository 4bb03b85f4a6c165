//! The octets of a head and the tags of elements that reader and writer share.

/// The first octet of every message.
pub const PROTOCOL: u8 = 0x08;
/// The second: how many octets the reference has.
pub const REFERENCE_LENGTH: u8 = 0x01;
// Tags are octets and no enum: a list may hold any tag, and one that is not known is passed over.
/// The tag of a bearer capability.
pub const BEARER: u8 = 0x04;
/// The tag of a cause.
pub const CAUSE: u8 = 0x08;
/// The tag of a called number.
pub const NUMBER: u8 = 0x70;
