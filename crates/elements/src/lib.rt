//! Reads lists of elements: tag, length, contents.
//!
//! One text serves every coding; a coding fixes how its lists end.
#![tactic(auto)]

ghost use Rattle.std.specs.Prelude.{◌≡◌, ℕ, ◌+◌, ◌-◌, ◌<◌, ◌≤◌, true, false, length, take, drop, Some, None, MatchOption};
ghost use Rattle.std.specs.Option.{option_map};
ghost use Rattle.std.specs.Iterator.{at_most};
ghost use Rattle.elements.specs.declared.types.EndRule.{EndRule};
ghost use Rattle.elements.specs.declared.types.Seen.TheVariants.{Nothing, End, Single, Element, Broken};
ghost use Rattle.elements.specs.Places.{Stops, StandsAt, size_of, walk_from};
ghost use Rattle.elements.specs.Elements.{ends_list, stands_alone, seen, walk, item_in, place_of, contents_of, ran_out_at, verdict, checked};

pub mod types;

use types::{EndRule, ListElement, ListFault, Seen};

/// A coding of element lists.
pub trait Coding: Copy {
    /// The tag that ends a list, or none.
    const END: Option<u8>;
    /// Whether a tag of 80 hex or more is a whole element of one octet.
    const SINGLES: bool;

    ghost rule: { EndRule };

    // Written by each coding: to write it here once, the trait would have to ask every coding for more than its rule.
    /// The two constants together, as code that is generic over the coding knows them.
    fn end_rule() -> EndRule
        ensures { result ≡ rule };
}

/// The information elements of DSS 1: no end tag, and one-octet elements from tag 80 hex.
#[derive(Clone, Copy)]
pub struct Dss1;

impl Coding for Dss1 {
    const END: Option<u8> = None;

    const SINGLES: bool = true;

    ghost rule = { record { end = None; singles = true } };

    fn end_rule() -> EndRule {
        EndRule {
            end: Self::END,
            singles: Self::SINGLES,
        }
    }
}

/// The optional parameters of ISUP: tag 00 ends the list.
#[derive(Clone, Copy)]
pub struct Isup;

impl Coding for Isup {
    const END: Option<u8> = Some(0x00);

    const SINGLES: bool = false;

    ghost rule = { record { end = Some 0; singles = false } };

    fn end_rule() -> EndRule {
        EndRule {
            end: Self::END,
            singles: Self::SINGLES,
        }
    }
}

impl EndRule {
    /// Whether a tag ends the list.
    pub fn ends_list(self, tag: u8) -> bool
        ensures { result ≡ ends_list self tag }
    {
        self.end == Some(tag)
    }

    /// Whether a tag is a whole element of one octet.
    pub fn stands_alone(self, tag: u8) -> bool
        ensures { result ≡ stands_alone self tag }
    {
        self.singles && tag >= 0x80
    }

    /// The length of a list whose octets run out at a place; or the fault that its end tag is missing.
    fn ran_out(self, place: usize) -> Result<usize, ListFault>
        ensures { result ≡ ran_out_at self.end place }
    {
        // By cases: the two answers are as short as the closure of a map_or would be.
        match self.end {
            Some(_) => Err(ListFault::NoEnd(place)),
            None => Ok(place),
        }
    }

    /// What stands at a place.
    fn look(self, list: &[u8], place: usize) -> Seen
        ensures seen { result ≡ seen self (drop place list.now) }
        ensures within { elim result [ Nothing ↦ length list.now ≤ place | End ↦ place < length list.now | Single ↦ place < length list.now | Element n ↦ place + 2 + n ≤ length list.now | Broken ↦ place < length list.now ] }
    {
        // Asked apart: by `get` and `unwrap_or` the walk over a list takes up to two thirds more instructions.
        if place >= list.len() {
            return Seen::Nothing;
        }
        match &list[place..] {
            [tag, ..] if self.ends_list(*tag) => Seen::End,
            [tag, ..] if self.stands_alone(*tag) => Seen::Single,
            [_, n, contents @ ..] if usize::from(*n) <= contents.len() => {
                Seen::Element(usize::from(*n))
            }
            _ => Seen::Broken,
        }
    }

    // Both at once: where the place is asked of the element afterwards, a list of one-octet elements takes half as long again.
    /// The whole element at a place, and the place behind it.
    fn element_at<'a>(self, list: &'a [u8], place: usize) -> Option<(ListElement<'a>, usize)>
        ensures { MatchOption result (Stops (seen self (drop place list.now))) (λ x. StandsAt self list.now place x.0 × (x.1 ≡ place + size_of x.0)) }
    {
        let (contents, behind) = match self.look(list, place) {
            Seen::Single => (None, place + 1),
            Seen::Element(n) => (Some(&list[place + 2..place + 2 + n]), place + 2 + n),
            Seen::Nothing | Seen::End | Seen::Broken => return None,
        };
        let element = ListElement {
            place,
            tag: list[place],
            contents,
        };
        Some((element, behind))
    }
}

/// What stands at a place of a list.
pub fn look<C: Coding>(list: &[u8], place: usize) -> Seen
    ensures seen { result ≡ seen C.rule (drop place list.now) }
    ensures within { elim result [ Nothing ↦ length list.now ≤ place | End ↦ place < length list.now | Single ↦ place < length list.now | Element n ↦ place + 2 + n ≤ length list.now | Broken ↦ place < length list.now ] }
{
    // The method of the rule, for callers that name a coding and hold no rule.
    C::end_rule().look(list, place)
}

/// The whole elements of a list, one by one, as far as its end or its first fault.
#[derive(Drop)]
pub struct Elements<'a> {
    rule: EndRule,
    list: &'a [u8],
    place: usize,
}

impl<'a> Elements<'a> {
    /// The elements of a list.
    pub fn of<C: Coding>(list: &'a [u8]) -> Elements<'a>
        ensures { (result.rule ≡ C.rule) × (result.list.now ≡ list.now) × (result.place ≡ 0) }
    {
        Elements {
            rule: C::end_rule(),
            list,
            place: 0,
        }
    }

    /// Passes over the elements that are left: the length of the list, its end tag counted, or what is wrong with it.
    // Inlined, so that the loop knows the rule of the coding: a short list then takes a quarter fewer instructions.
    #[inline(always)]
    pub fn end(mut self) -> Result<usize, ListFault>
        ensures { result ≡ verdict self.entry.rule (walk_from self.entry.rule self.entry.list.now self.entry.place) }
    {
        // By next: over a lent iterator the proof of the walk did not close; after it nothing was known of self.
        while self.next().is_some() {}
        match self.rule.look(self.list, self.place) {
            Seen::End => Ok(self.place + 1),
            Seen::Broken => Err(ListFault::BreaksOff(self.place)),
            // No whole element stands here, so the octets ran out.
            _ => self.rule.ran_out(self.place),
        }
    }
}

impl<'a> Iterator for Elements<'a> {
    type Item = ListElement<'a>;

    ghost remaining = { λ s. at_most (length s.list.now - s.place) };

    ghost next_gives = { λ s r t. (t.rule ≡ s.rule) × (t.list.now ≡ s.list.now) × MatchOption r ((t.place ≡ s.place) × Stops (seen s.rule (drop s.place s.list.now))) (λ e. StandsAt s.rule s.list.now s.place e × (t.place ≡ s.place + size_of e)) };

    fn next(&mut self) -> Option<ListElement<'a>> {
        let (element, behind) = self.rule.element_at(self.list, self.place)?;
        self.place = behind;
        Some(element)
    }
}

/// The place and the contents of the first element with a wanted tag and at least one octet of contents.
fn first<'a, C: Coding>(list: &'a [u8], wanted: u8) -> Option<(usize, &'a [u8])>
    ensures { option_map (λ x. record { place = x.0; tag = wanted; contents = x.1.now }) result ≡ item_in wanted (walk C.rule 0 0 list.now) }
{
    for element in Elements::of::<C>(list) {
        // The tag first: most elements are passed over for it alone.
        if element.tag == wanted {
            match element.contents {
                Some(contents) if !contents.is_empty() => return Some((element.place, contents)),
                _ => {}
            }
        }
    }
    None
}

/// The place of the first element with a wanted tag and at least one octet of contents, or none.
pub fn find<C: Coding>(list: &[u8], wanted: u8) -> Option<usize>
    ensures { result ≡ place_of C.rule wanted list.now }
{
    first::<C>(list, wanted).map(|(place, _)| place)
}

/// The contents of that element.
pub fn contents<'a, C: Coding>(list: &'a [u8], wanted: u8) -> Option<&'a [u8]>
    ensures { option_map (λ x. x.now) result ≡ contents_of C.rule wanted list.now }
{
    first::<C>(list, wanted).map(|(_, contents)| contents)
}

/// The length of a list of which every element is whole and the end is where it must be, its end tag
/// counted; else what is wrong, and where.
pub fn check<C: Coding>(list: &[u8]) -> Result<usize, ListFault>
    ensures { result ≡ checked C.rule list.now }
{
    Elements::of::<C>(list).end()
}
