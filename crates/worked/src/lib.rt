//! Worked messages: calls out to a trunk and in from it, message by message, as the three systems' tables have them.
#![tactic(auto)]

ghost use Rattle.worked.specs.Messages.{WorkedMessages};

/// The tables give these octets for these messages.
pub fn worked_messages()
    ensures { WorkedMessages }
{}
