//! The tags of the optional list and the events of call progress, read and written alike.
ghost use Rattle.std.specs.Prelude.{◌≡◌, ℕ};
ghost use Rattle.isup_reading.specs.Events.{event_or_unknown, event_octet};

use carried::UnknownOctet;

// Tags are octets and no enum: a list may hold any tag, and one that is not known is passed over.
/// The tag of access transport in the optional list.
pub const ACCESS: u8 = 0x03;
/// The tag of the bearer.
pub const BEARER: u8 = 0x1D;
/// The tag of user-user.
pub const USER: u8 = 0x20;

/// The events of call progress, with the octet that stands for each.
#[derive(Clone, Copy, PartialEq, Eq, Debug)]
pub enum Event {
    /// The called party is rung.
    Alerting = 0x01,
    /// Something happened on the way.
    Progress = 0x02,
    /// In-band information, as an announcement.
    InBand = 0x03,
}

impl Event {
    /// The octet that stands for this event.
    pub fn octet(self) -> u8
        ensures { result ≡ event_octet self }
    {
        self as u8
    }
}

/// The event that an octet stands for.
impl TryFrom<u8> for Event {
    type Error = UnknownOctet;

    ghost try_from_gives = { λ octet result. result ≡ event_or_unknown octet };

    fn try_from(octet: u8) -> Result<Event, UnknownOctet> {
        match octet {
            0x01 => Ok(Event::Alerting),
            0x02 => Ok(Event::Progress),
            0x03 => Ok(Event::InBand),
            _ => Err(UnknownOctet(octet)),
        }
    }
}
