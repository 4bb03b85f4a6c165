//! Kinds, phases and refusals in words.
use crate::kinds::{Kind, Layer, Phase, Reason, Refusal, System};
use std::fmt;

impl fmt::Display for Kind {
    fn fmt<W: fmt::Write>(&self, f: &mut fmt::Formatter<W>) -> fmt::Result {
        f.write_str(match *self {
            Kind::Setup => "Setup",
            Kind::Complete => "Complete",
            Kind::Progress => "Progress",
            Kind::Alerting => "Alerting",
            Kind::Answer => "Answer",
            Kind::Quiet => "Quiet",
            Kind::Clear => "Clear",
            Kind::Down => "Down",
        })
    }
}

impl fmt::Display for Phase {
    fn fmt<W: fmt::Write>(&self, f: &mut fmt::Formatter<W>) -> fmt::Result {
        f.write_str(match *self {
            Phase::Idle => "idle",
            Phase::Calling => "calling",
            Phase::CallingComplete => "calling and complete",
            Phase::Called => "called",
            Phase::CalledComplete => "called and complete",
            Phase::Alerted => "alerted",
            Phase::Answered => "answered",
            Phase::Clearing => "clearing",
        })
    }
}

impl fmt::Display for System {
    fn fmt<W: fmt::Write>(&self, f: &mut fmt::Formatter<W>) -> fmt::Result {
        f.write_str(match *self {
            System::Dss1 => "dss1",
            System::Isup => "isup",
            System::Line => "line",
        })
    }
}

impl fmt::Display for Layer {
    fn fmt<W: fmt::Write>(&self, f: &mut fmt::Formatter<W>) -> fmt::Result {
        f.write_str(match *self {
            Layer::NestedList => "nested list, list, message",
            Layer::List => "list, message",
            Layer::Message => "message",
            Layer::Legs => "legs",
        })
    }
}

impl fmt::Display for Reason {
    fn fmt<W: fmt::Write>(&self, f: &mut fmt::Formatter<W>) -> fmt::Result {
        f.write_str(match *self {
            Reason::ShortBuffer => "a buffer is below 256 octets",
            Reason::Malformed => "the message is not built as it must be",
            Reason::UnknownType => "the type or event is not listed",
            Reason::NoSuchLeg => "there is no such leg",
            Reason::Missing => "a required content is missing",
            Reason::BadValue => "a value is outside its rule",
            Reason::WrongPhase => "no row for the phase",
            Reason::NoRoute => "the route is missing, not callable or not idle",
            Reason::NotInCall => "the leg is in no call",
        })
    }
}

impl fmt::Display for Refusal {
    fn fmt<W: fmt::Write>(&self, f: &mut fmt::Formatter<W>) -> fmt::Result {
        let Refusal {
            reason,
            place,
            system,
            layer,
        } = *self;
        let number = reason.number();
        write!(
            f,
            "refused {number} at {place}: {reason} ({system} side: {layer})"
        )
    }
}
