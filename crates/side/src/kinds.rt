/// What a message says of its call, whatever the signalling system.
#[derive(Clone, Copy, PartialEq, Eq, Debug)]
pub enum Kind {
    /// A call begins.
    Setup,
    /// The number is complete.
    Complete,
    /// Something happened on the way, as an announcement.
    Progress,
    /// The called party is rung.
    Alerting,
    /// The called party answered.
    Answer,
    /// Nothing that the other party has to learn.
    Quiet,
    /// The call ends.
    Clear,
    /// The circuit is free again.
    Down,
}

/// How far the call of a leg has come.
#[derive(Clone, Copy, PartialEq, Eq, Debug)]
pub enum Phase {
    /// No call.
    Idle,
    /// The party at this leg calls.
    Calling,
    /// It calls, and was told that its number is complete.
    CallingComplete,
    /// The party at this leg is called.
    Called,
    /// It is called, and said that the number is complete.
    CalledComplete,
    /// It is called and rung.
    Alerted,
    /// The call is answered.
    Answered,
    /// The call is over, and the leg waits to be free.
    Clearing,
}

/// The signalling systems.
#[derive(Clone, Copy, PartialEq, Eq, Debug)]
pub enum System {
    Dss1,
    Isup,
    Line,
}

/// Why a message, a request or a cut is refused. The numbers are those of the table in docs/EXCHANGE.md.
#[derive(Clone, Copy, PartialEq, Eq, Debug)]
pub enum Reason {
    /// A buffer is below 256 octets.
    ShortBuffer = 1,
    /// The message is not built as it must be.
    Malformed = 2,
    /// A type or event that is not listed.
    UnknownType = 3,
    /// No such leg.
    NoSuchLeg = 4,
    /// A required content is missing.
    Missing = 5,
    /// A value is outside its rule.
    BadValue = 6,
    /// No row for the phase.
    WrongPhase = 7,
    /// A setup's route is missing, not callable or not idle.
    NoRoute = 8,
    /// The leg is in no call.
    NotInCall = 9,
}

/// The innermost layer in which a refusal arose; it rose through every one above it.
#[derive(Clone, Copy, PartialEq, Eq, Debug)]
pub enum Layer {
    /// The list inside another list's element.
    NestedList,
    /// The message's own element list.
    List,
    /// The message and its rules.
    Message,
    /// The phases of the side's legs.
    Legs,
}

/// A refusal by a side: why, at which octet, by which system, and in which of its layers.
#[derive(Clone, Copy, PartialEq, Eq, Debug)]
pub struct Refusal {
    pub reason: Reason,
    pub place: usize,
    pub system: System,
    pub layer: Layer,
}

/// Why parts are not carried.
#[derive(Clone, Copy, PartialEq, Eq, Debug)]
pub enum PartsFault {
    /// Together they take more than 200 octets.
    TotalOver,
    /// User-user holds more than 129 octets.
    UserUserOver,
}
