//! Prints a whole ISUP message: its type, fixed octets, pointers and what they reach.
use inspection::Found;
use isup_meaning::types::MessageType;
use std::io;
use text::Octets;
use wording::{INDENT, Page};

/// How many octets the head has: circuit and type.
const HEAD: usize = 3;

/// A message whose type is known.
#[derive(Clone, Copy)]
struct Message<'a> {
    page: Page<'a>,
    octets: &'a [u8],
    kind: MessageType,
}

/// A message of which a part that must be there is not.
fn show_missing(page: Page<'_>, what: &str, place: usize) -> io::Result<Found> {
    page.line(format_args!("broken: {what} at place {place}"))?;
    Ok(Found {
        broken: true,
        ..Found::default()
    })
}

impl Message<'_> {
    /// The octet at a place.
    fn octet(self, place: usize) -> Option<u8> {
        self.octets.get(place).copied()
    }

    /// The name of the field of the type, and the tag of the parameter that is coded as it is: the number of an IAM, the cause of a REL.
    fn field_name(self) -> (&'static str, u8) {
        match self.kind {
            MessageType::InitialAddress => ("Called party number", 0x0B),
            _ => ("Cause", 0x12),
        }
    }

    // The pointer is shown in both, and not by a helper of their own: that would have to answer three ways, missing, 00 or a place.
    /// The field that the pointer at a place reaches.
    fn show_field(self, place: usize) -> io::Result<Found> {
        let page = self.page;
        let Some(pointer) = self.octet(place) else {
            return show_missing(page, "the pointer to the field is missing", place);
        };
        page.line(format_args!("{place:>6}      pointer {pointer:02X} to the field"))?;
        if pointer == 0 {
            return Ok(Found::default());
        }
        let start = place.saturating_add(usize::from(pointer));
        let Some(count) = self.octet(start) else {
            return show_missing(page, "the field begins behind the message", start);
        };
        let first = start.saturating_add(1);
        let end = first.saturating_add(usize::from(count));
        let Some(field) = self.octets.get(first..end) else {
            return show_missing(page, "the field breaks off", start);
        };
        let (name, tag) = self.field_name();
        inspection::show_field(page.rt, start, name, tag, field)?;
        Ok(Found::default())
    }

    /// The optional list, from the octet that the pointer at a place reaches.
    fn show_list(self, place: usize) -> io::Result<Found> {
        let page = self.page;
        let Some(pointer) = self.octet(place) else {
            return show_missing(page, "the pointer to the list is missing", place);
        };
        page.line(format_args!("{place:>6}      pointer {pointer:02X} to the list"))?;
        if pointer == 0 {
            return Ok(Found::default());
        }
        let start = place.saturating_add(usize::from(pointer));
        match self.octets.get(start..) {
            Some(list) => inspection::show_parameters(page.rt, start, list),
            None => show_missing(page, "the list begins behind the message", start),
        }
    }

    /// What stands behind the type.
    fn show_body(self) -> io::Result<Found> {
        let page = self.page;
        let pointers = HEAD.saturating_add(self.kind.fixed_count());
        let Some(fixed) = self.octets.get(HEAD..pointers) else {
            return show_missing(page, "fixed octets are missing", self.octets.len());
        };
        if !fixed.is_empty() {
            page.line(format_args!("{HEAD:>6}      fixed octets {}", Octets(fixed)))?;
        }
        if !self.kind.has_field() {
            return self.show_list(pointers);
        }
        let field = self.show_field(pointers)?;
        let list = self.show_list(pointers.saturating_add(1))?;
        Ok(Found {
            broken: field.broken || list.broken,
            ..list
        })
    }
}

/// An ISUP message.
pub fn show_isup(rt: &HostRuntime, octets: &[u8]) -> io::Result<Found> {
    let page = Page { rt, indent: INDENT };
    let Some(head) = octets.get(0..HEAD) else {
        return show_missing(page, "it breaks off", octets.len());
    };
    match MessageType::try_from(head[2]) {
        Ok(kind) => {
            page.line(format_args!("header  {}  {kind}", Octets(head)))?;
            let message = Message { page, octets, kind };
            message.show_body()
        }
        Err(_) => {
            page.line(format_args!("header  {}  unknown type", Octets(head)))?;
            Ok(Found::default())
        }
    }
}
