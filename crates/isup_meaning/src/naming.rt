//! The octets of the types of message.
ghost use Rattle.std.specs.Prelude.{◌≡◌, ℕ};
ghost use Rattle.isup_meaning.specs.Reading.{type_or_unknown, type_octet};

use crate::types::MessageType;
use carried::UnknownOctet;

// A table for each system: its types are its own, and one octet means another type in the other.
/// The type that an octet stands for.
impl TryFrom<u8> for MessageType {
    type Error = UnknownOctet;

    ghost try_from_gives = { λ octet result. result ≡ type_or_unknown octet };

    fn try_from(octet: u8) -> Result<MessageType, UnknownOctet> {
        match octet {
            0x01 => Ok(MessageType::InitialAddress),
            0x06 => Ok(MessageType::AddressComplete),
            0x07 => Ok(MessageType::Connect),
            0x09 => Ok(MessageType::Answer),
            0x0C => Ok(MessageType::Release),
            0x10 => Ok(MessageType::ReleaseComplete),
            0x2C => Ok(MessageType::CallProgress),
            _ => Err(UnknownOctet(octet)),
        }
    }
}

impl MessageType {
    /// The octet that stands for this type.
    pub fn octet(self) -> u8
        ensures { result ≡ type_octet self }
    {
        self as u8
    }
}
