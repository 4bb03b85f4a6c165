/// The types of message that cross a subscriber's access, each with the octet that stands for it.
#[derive(Clone, Copy, PartialEq, Eq, Debug)]
pub enum MessageType {
    Alerting = 0x01,
    CallProceeding = 0x02,
    Progress = 0x03,
    Setup = 0x05,
    Connect = 0x07,
    ConnectAcknowledge = 0x0F,
    Disconnect = 0x45,
    Release = 0x4D,
    ReleaseComplete = 0x5A,
}
