//! Prints what a message was read as: leg, type, kind and contents.
use crate::names;
use crate::page::Page;
use side::contents::{Cause, Progress, Reading, Setup, Signal};
use side::parts::Parts;
use std::io;
use text::{Characters, Octets};

impl Page<'_> {
    /// Whether the called party has an ISDN's access.
    fn access(self, isdn: bool) -> io::Result<()> {
        self.line(if isdn {
            "ISDN access"
        } else {
            "no ISDN access"
        })
    }

    /// Progress, if any came.
    fn progress(self, progress: Option<Progress>) -> io::Result<()> {
        let Some(progress) = progress else {
            return Ok(());
        };
        let octets = [progress.location, progress.description];
        let description = progress.described();
        let words = names::progress(description);
        self.line(format_args!("progress {}: {description}, {words}", Octets(&octets)))
    }

    /// One carried part, if it is there.
    fn part(self, tag: u8, contents: &[u8]) -> io::Result<()> {
        if contents.is_empty() {
            return Ok(());
        }
        let name = names::element(tag);
        self.line(format_args!("carries {tag:02X} {name}: {}", Octets(contents)))
    }

    /// The carried parts.
    fn parts(self, parts: &Parts) -> io::Result<()> {
        self.part(0x6D, parts.calling())?;
        self.part(0x71, parts.called())?;
        self.part(0x7C, parts.low())?;
        self.part(0x7D, parts.high())?;
        self.part(0x7E, parts.user_user())
    }

    /// What a setup says.
    fn setup(self, setup: &Setup) -> io::Result<()> {
        let bearer = Octets(setup.bearer.as_octets());
        let kind = setup.number.kind;
        let digits = Characters(setup.number.digits.as_octets());
        self.line(format_args!("bearer {bearer}"))?;
        self.line(format_args!("{kind}, digits {digits}"))?;
        self.line(if setup.isdn {
            "from an ISDN"
        } else {
            "not from an ISDN"
        })?;
        self.progress(setup.progress)?;
        self.parts(&setup.parts)
    }

    /// What a called party says.
    fn party(self, progress: Option<Progress>, isdn: bool, parts: &Parts) -> io::Result<()> {
        self.access(isdn)?;
        self.progress(progress)?;
        self.parts(parts)
    }

    /// Why a call ends.
    fn clear(self, cause: Cause, parts: &Parts) -> io::Result<()> {
        self.line(names::LocatedCause {
            location: cause.location(),
            value: cause.value(),
        })?;
        self.parts(parts)
    }

    /// What a signal says beyond its kind.
    fn signal(self, signal: &Signal) -> io::Result<()> {
        match *signal {
            Signal::Setup(setup) => self.setup(&setup),
            Signal::Complete(progress, isdn) => {
                self.access(isdn)?;
                self.progress(progress)
            }
            Signal::Progress(progress, isdn) => {
                self.access(isdn)?;
                self.progress(Some(progress))
            }
            Signal::Alerting(progress, isdn, parts) | Signal::Answer(progress, isdn, parts) => {
                self.party(progress, isdn, &parts)
            }
            Signal::Clear(cause, parts) => self.clear(cause, &parts),
            Signal::Quiet | Signal::Down => Ok(()),
        }
    }

    /// What a message was read as.
    pub fn reading(self, reading: &Reading) -> io::Result<()> {
        let leg = reading.leg.number();
        let heard = reading.heard;
        let kind = reading.signal.kind();
        self.line(format_args!("read as {kind}, leg {leg}, type {heard:02X}"))?;
        self.signal(&reading.signal)
    }
}
