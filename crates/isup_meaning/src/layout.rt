//! What stands behind the type of a message.
ghost use Rattle.std.specs.Prelude.{◌≡◌, ℕ, ◌≤◌};
ghost use Rattle.isup_meaning.specs.Reading.{fixed_count, has_field};

use crate::types::MessageType;

impl MessageType {
    /// How many fixed octets stand behind the type.
    pub fn fixed_count(self) -> usize
        ensures value { result ≡ fixed_count self }
        ensures few { result ≤ 5 }
    {
        match self {
            MessageType::InitialAddress => 5,
            MessageType::AddressComplete | MessageType::Connect => 2,
            MessageType::CallProgress => 1,
            MessageType::Answer | MessageType::Release | MessageType::ReleaseComplete => 0,
        }
    }

    /// Whether a pointer to a mandatory field of variable length stands behind the fixed octets.
    pub fn has_field(self) -> bool
        ensures { result ≡ has_field self }
    {
        matches!(self, MessageType::InitialAddress | MessageType::Release)
    }
}
