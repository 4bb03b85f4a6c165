//! A message with its head, and the pointers in it.
ghost use Rattle.std.specs.Prelude.{◌≡◌, ℕ, ◌<◌, ◌≤◌, length};

use elements::Isup as OptionalCoding;
use elements::types::ListFault;
use isup_meaning::types::MessageType;
use side::kinds::{Layer, Reason, Refusal, System};
use side::leg::Leg;
use side::refusing::LONGEST;

/// The place of the type.
pub(crate) const TYPE: usize = 2;
/// How many octets the head has: circuit and type.
const HEAD: usize = 3;

/// A message that has its head and is not too long.
#[derive(Clone, Copy)]
pub(crate) struct Message<'a> {
    octets: &'a [u8],
    ghost short: { length octets.now < 256 },
}

/// A pointer of a message: it counts from its own octet.
#[derive(Clone, Copy)]
pub(crate) struct Pointer<'a> {
    message: Message<'a>,
    place: usize,
    ghost few: { place < 256 },
}

impl<'a> Message<'a> {
    ghost use Rattle.std.specs.Prelude.{MatchResult, Some, None, true, false, nat_le, nat_lt, ◌+◌, ◌&&◌, take, drop, slice_index};
    ghost use Rattle.side.specs.declared.kinds.Reason.TheVariants.{Malformed, UnknownType, NoSuchLeg};
    ghost use Rattle.isup_meaning.specs.Reading.{refusal, headed, type_in, circuit_in, fixed_count, field_pointer, list_pointer};

    /// The message, if it has its head and is not too long.
    pub(crate) fn new(octets: &'a [u8]) -> Result<Message<'a>, Refusal>
        ensures { MatchResult result (λ m. (true ≡ headed octets.now) × (m.octets.now ≡ octets.now)) (λ e. (false ≡ headed octets.now) × (e ≡ refusal Malformed 0)) }
    {
        if (HEAD..=LONGEST).contains(&octets.len()) {
            Ok(Message { octets })
        } else {
            Err(System::Isup.refuses(Reason::Malformed, 0))
        }
    }

    /// The octet at a place; past the end 0.
    pub(crate) fn octet(self, place: usize) -> u8
        ensures { result ≡ slice_index self.entry.octets.now place }
    {
        self.octets.get(place).copied().unwrap_or(0)
    }

    /// Its type.
    pub(crate) fn kind(self) -> Result<MessageType, Refusal>
        ensures { MatchResult result (λ t. Some t ≡ type_in (slice_index self.entry.octets.now 2)) (λ e. (None ≡ type_in (slice_index self.entry.octets.now 2)) × (e ≡ refusal UnknownType 2)) }
    {
        MessageType::try_from(self.octet(TYPE)).map_err(|_| System::Isup.refuses(
            Reason::UnknownType,
            TYPE,
        ))
    }

    /// The circuit: octet 0 and the low half of octet 1.
    fn circuit(self) -> usize
        ensures { result ≡ circuit_in self.entry.octets.now }
    {
        usize::from(self.octet(0)) + 256 * usize::from(self.octet(1) % 16)
    }

    /// The leg of its circuit, on a side with so many of them.
    pub(crate) fn leg(self, legs: usize) -> Result<Leg, Refusal>
        ensures { MatchResult result (λ l. (true ≡ (nat_lt (circuit_in self.entry.octets.now) legs && nat_lt (circuit_in self.entry.octets.now) 64)) × (l.number ≡ circuit_in self.entry.octets.now)) (λ e. (false ≡ (nat_lt (circuit_in self.entry.octets.now) legs && nat_lt (circuit_in self.entry.octets.now) 64)) × (e ≡ refusal NoSuchLeg 0)) }
    {
        Leg::among(self.circuit(), legs).ok_or(System::Isup.refuses(Reason::NoSuchLeg, 0))
    }

    /// Whether all the fixed octets of a type are there.
    pub(crate) fn has_fixed(self, kind: MessageType) -> bool
        ensures { result ≡ nat_le (3 + fixed_count kind) (length self.entry.octets.now) }
    {
        self.octets.len() >= HEAD + kind.fixed_count()
    }

    /// What stands from a place on.
    fn rest(self, place: usize) -> &'a [u8]
        ensures value { result.now ≡ drop place self.entry.octets.now }
        ensures short { length result.now ≤ length self.entry.octets.now }
    {
        self.octets.get(place..).unwrap_or(&[])
    }

    /// So many octets from a place on, as far as they are there.
    fn cut(self, place: usize, count: usize) -> &'a [u8]
        ensures { result.now ≡ take count (drop place self.entry.octets.now) }
    {
        let rest = self.rest(place);
        rest.get(..count).unwrap_or(rest)
    }

    /// The pointer to the mandatory field, where a message of a type has one.
    pub(crate) fn field_pointer(self, kind: MessageType) -> Pointer<'a>
        ensures message { result.message.octets.now ≡ self.entry.octets.now }
        ensures place { result.place ≡ field_pointer kind }
    {
        Pointer {
            message: self,
            place: HEAD + kind.fixed_count(),
        }
    }

    /// The pointer to the optional list of a message of a type.
    pub(crate) fn list_pointer(self, kind: MessageType) -> Pointer<'a>
        ensures message { result.message.octets.now ≡ self.entry.octets.now }
        ensures place { result.place ≡ list_pointer kind }
    {
        Pointer {
            message: self,
            place: HEAD + kind.fixed_count() + usize::from(kind.has_field()),
        }
    }
}

impl<'a> Pointer<'a> {
    ghost use Rattle.std.specs.Prelude.{slice_index};
    ghost use Rattle.carried.specs.Carried.{refused};
    ghost use Rattle.isup_meaning.specs.Reading.{pointed, field_in, list_in, field_fault, optional_fault};

    /// Where it reaches.
    pub(crate) fn reached(self) -> usize
        ensures value { result ≡ pointed self.entry.message.octets.now self.entry.place }
        ensures small { result < 512 }
    {
        self.place + usize::from(self.message.octet(self.place))
    }

    /// The contents of the field that it reaches; none where it is 00.
    pub(crate) fn field(self) -> &'a [u8]
        ensures { result.now ≡ field_in self.entry.message.octets.now self.entry.place }
    {
        if self.message.octet(self.place) == 0 {
            return &[];
        }
        let place = self.reached();
        self.message
            .cut(place + 1, usize::from(self.message.octet(place)))
    }

    /// The optional list begins at the octet that it reaches; none where it is 00.
    pub(crate) fn list(self) -> &'a [u8]
        ensures value { result.now ≡ list_in self.entry.message.octets.now self.entry.place }
        ensures short { length result.now < 256 }
    {
        if self.message.octet(self.place) == 0 {
            return &[];
        }
        self.message.rest(self.reached())
    }

    /// Its field is not whole if the pointer is not there, or if not all is there of the field that it reaches.
    pub(crate) fn check_field(self) -> Result<(), Refusal>
        ensures { refused result ≡ field_fault self.entry.message.octets.now self.entry.place }
    {
        let malformed = System::Isup.refuses(Reason::Malformed, self.place);
        let distance = self.message.octets.get(self.place).ok_or(malformed)?;
        if *distance == 0 {
            return Ok(());
        }
        let place = self.reached();
        let end = place + 1 + usize::from(self.message.octet(place));
        if end > self.message.octets.len() {
            return Err(malformed);
        }
        Ok(())
    }

    /// Its list is not whole if the pointer is not there, if an element breaks off, which is refused at its tag, or if
    /// the end tag is missing, which is refused at the pointer.
    pub(crate) fn check_list(self) -> Result<(), Refusal>
        ensures { refused result ≡ optional_fault self.entry.message.octets.now self.entry.place }
    {
        let malformed = System::Isup.refuses(Reason::Malformed, self.place);
        let distance = self.message.octets.get(self.place).ok_or(malformed)?;
        if *distance == 0 {
            return Ok(());
        }
        let start = self.reached();
        let place = match elements::check::<OptionalCoding>(self.message.rest(start)) {
            Ok(_) => return Ok(()),
            Err(ListFault::BreaksOff(place)) => start + place,
            Err(ListFault::NoEnd(_)) => self.place,
        };
        Err(Refusal {
            layer: Layer::List,
            ..System::Isup.refuses(Reason::Malformed, place)
        })
    }
}
