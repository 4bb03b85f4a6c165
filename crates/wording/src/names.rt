//! The usual names of message types, elements, parameters, causes and the like.
//!
//! Of octets and not of enums: a capture may hold any octet, and each is shown.
//! An octet without a name has words that say so, and no None: each line shows them where a name would stand.

use std::fmt;

/// The name of a message type of DSS 1.
pub fn message_type(code: u8) -> &'static str {
    match code {
        0x01 => "ALERTING",
        0x02 => "CALL PROCEEDING",
        0x03 => "PROGRESS",
        0x05 => "SETUP",
        0x07 => "CONNECT",
        0x0D => "SETUP ACKNOWLEDGE",
        0x0F => "CONNECT ACKNOWLEDGE",
        0x45 => "DISCONNECT",
        0x4D => "RELEASE",
        0x5A => "RELEASE COMPLETE",
        0x75 => "STATUS ENQUIRY",
        0x7B => "INFORMATION",
        0x7D => "STATUS",
        _ => "unknown type",
    }
}

/// The name of an information element of DSS 1 that has contents.
fn long_element(tag: u8) -> &'static str {
    match tag {
        0x04 => "Bearer capability",
        0x08 => "Cause",
        0x10 => "Call identity",
        0x14 => "Call state",
        0x18 => "Channel identification",
        0x1C => "Facility",
        0x1E => "Progress indicator",
        0x27 => "Notification indicator",
        0x28 => "Display",
        0x2C => "Keypad",
        0x34 => "Signal",
        _ => "unknown",
    }
}

/// The name of an information element of DSS 1 that speaks of a party or of what it can do.
fn party_element(tag: u8) -> &'static str {
    match tag {
        0x4C => "Connected number",
        0x4D => "Connected subaddress",
        0x6C => "Calling party number",
        0x6D => "Calling party subaddress",
        0x70 => "Called party number",
        0x71 => "Called party subaddress",
        0x74 => "Redirecting number",
        0x7C => "Low layer compatibility",
        0x7D => "High layer compatibility",
        0x7E => "User-user",
        _ => "unknown",
    }
}

/// The name of an information element of DSS 1.
pub fn element(tag: u8) -> &'static str {
    match tag {
        0x00..=0x3F => long_element(tag),
        0x40..=0x7F => party_element(tag),
        0x90..=0x9F => "Shift",
        0xA0 => "More data",
        0xA1 => "Sending complete",
        0xB0..=0xBF => "Congestion level",
        0xD0..=0xDF => "Repeat indicator",
        _ => "unknown",
    }
}

/// The name of an optional parameter of ISUP.
pub fn parameter(tag: u8) -> &'static str {
    match tag {
        0x00 => "End of optional parameters",
        0x03 => "Access transport",
        0x0A => "Calling party number",
        0x0B => "Redirecting number",
        0x12 => "Cause indicators",
        0x13 => "Redirection information",
        0x1D => "User service information",
        0x20 => "User-to-user information",
        0x21 => "Connected number",
        0x28 => "Original called number",
        0x29 => "Optional backward call indicators",
        0x2A => "User-to-user indicators",
        0x2C => "Generic notification",
        0x34 => "User teleservice information",
        0x39 => "Parameter compatibility",
        _ => "unknown",
    }
}

/// The usual words of a cause value.
pub fn cause(value: u8) -> &'static str {
    match value {
        1 => "unallocated number",
        3 => "no route to destination",
        16 => "normal call clearing",
        17 => "user busy",
        18 => "no user responding",
        19 => "no answer",
        21 => "call rejected",
        22 => "number changed",
        27 => "destination out of order",
        28 => "invalid number format",
        31 => "normal, unspecified",
        34 => "no circuit available",
        41 => "temporary failure",
        102 => "recovery on timer expiry",
        111 => "protocol error",
        127 => "interworking",
        _ => "no usual words",
    }
}

/// The usual words of a progress description.
pub fn progress(description: u8) -> &'static str {
    match description {
        1 => "the call is not end-to-end ISDN",
        2 => "the destination is not ISDN",
        3 => "the origination is not ISDN",
        4 => "the call has returned to ISDN",
        8 => "in-band information",
        _ => "no usual words",
    }
}

/// Where a cause or a progress comes from.
pub fn location(code: u8) -> &'static str {
    match code {
        0 => "user",
        1 => "private network of the local user",
        2 => "public network of the local user",
        3 => "transit network",
        4 => "public network of the remote user",
        5 => "private network of the remote user",
        7 => "international network",
        10 => "network beyond an interworking point",
        _ => "unknown location",
    }
}

/// A cause in words: its value and where it comes from, each with its usual name.
#[derive(Clone, Copy)]
pub struct LocatedCause {
    /// The code of the location.
    pub location: u8,
    /// The value.
    pub value: u8,
}

impl fmt::Display for LocatedCause {
    fn fmt<W: fmt::Write>(&self, f: &mut fmt::Formatter<W>) -> fmt::Result {
        let words = cause(self.value);
        let from = location(self.location);
        let LocatedCause { location, value } = *self;
        write!(f, "cause {value}, {words}; location {location}, {from}")
    }
}
