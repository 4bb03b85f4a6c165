use std::fmt;

/// The types of message on a trunk, with the octet that stands for each.
#[derive(Clone, Copy, PartialEq, Eq, Debug)]
pub enum MessageType {
    /// IAM.
    InitialAddress = 0x01,
    /// ACM.
    AddressComplete = 0x06,
    /// CON.
    Connect = 0x07,
    /// ANM.
    Answer = 0x09,
    /// CPG.
    CallProgress = 0x2C,
    /// REL.
    Release = 0x0C,
    /// RLC.
    ReleaseComplete = 0x10,
}

impl fmt::Display for MessageType {
    fn fmt<W: fmt::Write>(&self, f: &mut fmt::Formatter<W>) -> fmt::Result {
        f.write_str(match self {
            MessageType::InitialAddress => "IAM",
            MessageType::AddressComplete => "ACM",
            MessageType::Connect => "CON",
            MessageType::Answer => "ANM",
            MessageType::Release => "REL",
            MessageType::ReleaseComplete => "RLC",
            MessageType::CallProgress => "CPG",
        })
    }
}
