//! The body of a message: what its pointers reach, and what in it is broken.
ghost use Rattle.std.specs.Prelude.{◌≡◌, ℕ, ◌<◌, length, MatchResult, None, Err};
ghost use Rattle.isup_meaning.specs.Reading.{refusal, nested_fault, body_in, broken, whole_read, layout_read};
ghost use Rattle.entries.specs.Codings.{dss1, isup};
ghost use Rattle.entries.specs.Entries.{found};
ghost use Rattle.carried.specs.Carried.{refused, tag_place};
ghost use Rattle.elements.specs.Elements.{checked};
ghost use Rattle.isup_reading.specs.Reads.{body_of};

use crate::codes::{ACCESS, BEARER, USER};
use crate::message::Message;
use carried::both;
use elements::{Dss1, Isup as OptionalCoding};
use isup_meaning::types::MessageType;
use side::kinds::{Layer, Reason, Refusal, System};

// Octets, and no Option of them: contents that are empty count as not there, so an Option would say it twice.
/// What stands under a tag of the optional list, and the tag's place; what is not there is empty.
#[derive(Clone, Copy)]
pub(crate) struct Tagged<'a> {
    pub(crate) contents: &'a [u8],
    pub(crate) place: usize,
}

// The field is octets, and no Option of them, for the same reason as the contents under a tag.
/// A message and what its pointers reach; what is not there is empty.
#[derive(Clone, Copy)]
pub(crate) struct Body<'a> {
    pub(crate) message: Message<'a>,
    pub(crate) field: &'a [u8],
    pub(crate) access: Tagged<'a>,
    pub(crate) bearer: Tagged<'a>,
    pub(crate) user: Tagged<'a>,
}

impl<'a> Tagged<'a> {
    /// What an optional list that begins at a place of the message has under a tag.
    fn under(list: &'a [u8], start: usize, tag: u8) -> Tagged<'a>
        requires short { length list.now < 256 }
        requires few { start < 512 }
        ensures contents { result.contents.now ≡ found isup tag list.now }
        ensures place { result.place ≡ tag_place isup start tag list.now }
    {
        Tagged {
            contents: elements::contents::<OptionalCoding>(list, tag).unwrap_or(&[]),
            place: start + elements::find::<OptionalCoding>(list, tag).unwrap_or(0),
        }
    }

    /// What is broken in a list of DSS 1 elements under a tag is refused at the tag.
    fn check_nested(self) -> Result<(), Refusal>
        ensures { refused result ≡ nested_fault self.entry.place (checked dss1 self.entry.contents.now) }
    {
        match elements::check::<Dss1>(self.contents) {
            Ok(_) => Ok(()),
            Err(_) => Err(Refusal {
                layer: Layer::NestedList,
                ..System::Isup.refuses(Reason::Malformed, self.place)
            }),
        }
    }
}

impl<'a> Body<'a> {
    // The type is a parameter, and no part of a message: a message is there before its type is known, and what is
    // read at fixed places needs none.
    /// What the pointers of a message of a type reach.
    fn of(message: Message<'a>, kind: MessageType) -> Body<'a>
        ensures { body_of result ≡ body_in message.entry.octets.now kind }
    {
        let pointer = message.list_pointer(kind);
        let list = pointer.list();
        let start = pointer.reached();
        Body {
            message,
            field: message.field_pointer(kind).field(),
            access: Tagged::under(list, start, ACCESS),
            bearer: Tagged::under(list, start, BEARER),
            user: Tagged::under(list, start, USER),
        }
    }

    /// Of everything that is broken, what stands at the smallest place is refused.
    fn check(self, kind: MessageType) -> Result<(), Refusal>
        ensures { refused result ≡ broken (body_of self.entry).octets kind (body_of self.entry) }
    {
        let field = if kind.has_field() {
            self.message.field_pointer(kind).check_field()
        } else {
            Ok(())
        };
        let optional = self.message.list_pointer(kind).check_list();
        both(field, both(optional, self.access.check_nested()))?;
        Ok(())
    }

    /// The body of a message of a type: its fixed octets are there, and nothing in it is broken.
    pub(crate) fn whole(message: Message<'a>, kind: MessageType) -> Result<Body<'a>, Refusal>
        ensures { MatchResult result (λ b. (body_of b ≡ body_in message.entry.octets.now kind) × (whole_read message.entry.octets.now kind None ≡ layout_read message.entry.octets.now kind)) (λ e. Err e ≡ layout_read message.entry.octets.now kind) }
    {
        if !message.has_fixed(kind) {
            return Err(System::Isup.refuses(Reason::Malformed, 0));
        }
        let body = Body::of(message, kind);
        body.check(kind)?;
        Ok(body)
    }
}
