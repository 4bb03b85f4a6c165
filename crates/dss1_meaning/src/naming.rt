//! The octets and the names of the types of message.
ghost use Rattle.std.specs.Prelude.{◌≡◌, ℕ};
ghost use Rattle.dss1_meaning.specs.Dss1.{type_or_unknown, type_octet};

use crate::types::MessageType;
use carried::UnknownOctet;
use std::fmt;

// A table for each system: its types are its own, and one octet means another type in the other.
/// The type that an octet stands for.
impl TryFrom<u8> for MessageType {
    type Error = UnknownOctet;

    ghost try_from_gives = { λ octet result. result ≡ type_or_unknown octet };

    fn try_from(octet: u8) -> Result<MessageType, UnknownOctet> {
        match octet {
            0x01 => Ok(MessageType::Alerting),
            0x02 => Ok(MessageType::CallProceeding),
            0x03 => Ok(MessageType::Progress),
            0x05 => Ok(MessageType::Setup),
            0x07 => Ok(MessageType::Connect),
            0x0F => Ok(MessageType::ConnectAcknowledge),
            0x45 => Ok(MessageType::Disconnect),
            0x4D => Ok(MessageType::Release),
            0x5A => Ok(MessageType::ReleaseComplete),
            _ => Err(UnknownOctet(octet)),
        }
    }
}

impl MessageType {
    /// The octet that stands for this type.
    pub fn octet(self) -> u8
        ensures { result ≡ type_octet self }
    {
        self as u8
    }
}

impl fmt::Display for MessageType {
    fn fmt<W: fmt::Write>(&self, f: &mut fmt::Formatter<W>) -> fmt::Result {
        f.write_str(match self {
            MessageType::Alerting => "ALERTING",
            MessageType::CallProceeding => "CALL PROCEEDING",
            MessageType::Progress => "PROGRESS",
            MessageType::Setup => "SETUP",
            MessageType::Connect => "CONNECT",
            MessageType::ConnectAcknowledge => "CONNECT ACKNOWLEDGE",
            MessageType::Disconnect => "DISCONNECT",
            MessageType::Release => "RELEASE",
            MessageType::ReleaseComplete => "RELEASE COMPLETE",
        })
    }
}
