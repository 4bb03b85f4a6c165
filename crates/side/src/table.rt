//! The table of phases as code.
ghost use Rattle.std.specs.Prelude.{◌≡◌};
ghost use Rattle.side.specs.Table.{phase_number, heard_in, told_in, heard_to, told_to};

use crate::kinds::{Kind, Phase};

impl Phase {
    /// The phase's number, 0 to 7.
    pub fn number(self) -> u8
        ensures { result ≡ phase_number self }
    {
        self as u8
    }
}

impl Kind {
    /// Whether a kind may be heard in a phase.
    pub fn heard_in(self, phase: Phase) -> bool
        ensures { result ≡ heard_in self phase }
    {
        match self {
            Kind::Setup => matches!(phase, Phase::Idle),
            Kind::Complete => matches!(phase, Phase::Called),
            Kind::Alerting => matches!(phase, Phase::Called | Phase::CalledComplete),
            Kind::Progress | Kind::Answer => matches!(
                phase,
                Phase::Called | Phase::CalledComplete | Phase::Alerted
            ),
            Kind::Quiet => !matches!(phase, Phase::Idle | Phase::Clearing),
            Kind::Clear => true,
            Kind::Down => matches!(phase, Phase::Clearing),
        }
    }

    /// Whether a kind may be told in a phase; a setup only to a leg that may be called.
    pub fn told_in(self, callable: bool, phase: Phase) -> bool
        ensures { result ≡ told_in self callable phase }
    {
        match self {
            Kind::Setup => callable && matches!(phase, Phase::Idle),
            Kind::Complete | Kind::Progress | Kind::Alerting | Kind::Answer => {
                matches!(phase, Phase::Calling | Phase::CallingComplete)
            }
            Kind::Clear => !matches!(phase, Phase::Idle | Phase::Clearing),
            Kind::Quiet | Kind::Down => false,
        }
    }

    /// The phase after a kind was heard; `cleared` is that after the end of a call.
    pub fn heard_to(self, cleared: Phase, phase: Phase) -> Phase
        ensures { result ≡ heard_to self cleared phase }
    {
        match self {
            Kind::Setup => Phase::Calling,
            Kind::Complete => Phase::CalledComplete,
            Kind::Progress => match phase {
                Phase::Alerted => Phase::Alerted,
                _ => Phase::CalledComplete,
            },
            Kind::Alerting => Phase::Alerted,
            Kind::Answer => Phase::Answered,
            Kind::Quiet => phase,
            Kind::Clear => cleared,
            Kind::Down => Phase::Idle,
        }
    }

    /// The phase after a kind was told.
    pub fn told_to(self, phase: Phase) -> Phase
        ensures { result ≡ told_to self phase }
    {
        match self {
            Kind::Setup => Phase::Called,
            Kind::Complete | Kind::Progress | Kind::Alerting => Phase::CallingComplete,
            Kind::Answer => Phase::Answered,
            Kind::Clear => Phase::Clearing,
            Kind::Quiet | Kind::Down => phase,
        }
    }
}
