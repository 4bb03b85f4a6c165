//! Prints what stands in a message.
ghost use Rattle.std.specs.Prelude.{◌≡◌, not, is_ok, IfOk};
ghost use Rattle.inspection.specs.Found.{Dss1Found, ParametersFound};

use crate::header::Message;
use crate::meaning::{Described, Meaning};
use crate::rewrite;
use crate::rewrite::RewriteFault;
use crate::types::{Count, Found};
use elements::types::{ListElement, ListFault};
use elements::{Dss1, Elements, Isup};
use lists::take_apart;
use std::io;
use text::Octets;
use wording::{INDENT, Page, names};

/// The tag of the parameter that holds DSS 1 elements.
const ACCESS_TRANSPORT: u8 = 0x03;

/// How many octets the header of a DSS 1 message has.
const HEADER: usize = 4;

/// What stands in front of each line of a list that is nested in another.
const NESTED: &str = "      ";

/// What the contents of an element say, where they are read.
fn show_meaning(page: Page<'_>, meaning: Option<Meaning>) -> io::Result<()> {
    match meaning {
        Some(meaning) => page.line(format_args!("            {meaning}")),
        None => Ok(()),
    }
}

// Page and place are two parameters: a list inside a list is printed on another page, and begins elsewhere.
/// One element of a list whose first octet stands at a place: its own place, tag, name, length, contents, and what they say.
fn show_element<C: Described>(
    page: Page<'_>,
    start: usize,
    element: ListElement<'_>,
) -> io::Result<()> {
    let place = start.saturating_add(element.place);
    let tag = element.tag;
    let name = C::name(tag);
    let Some(contents) = element.contents else {
        return page.line(format_args!("{place:>6}  {tag:02X}  {name:<33}    -  one octet"));
    };
    let count = contents.len();
    let octets = Octets(contents);
    page.line(format_args!("{place:>6}  {tag:02X}  {name:<33}  {count:>3}  {octets}"))?;
    show_meaning(page, C::meaning(tag, contents))
}

/// The elements of a list whose first octet stands at a place.
fn show_elements<C: Described>(page: Page<'_>, start: usize, list: &[u8]) -> io::Result<()> {
    for element in Elements::of::<C>(list) {
        show_element::<C>(page, start, element)?;
    }
    Ok(())
}

/// What is wrong with a list whose first octet stands at a place, if anything is.
fn show_fault(page: Page<'_>, start: usize, end: Result<usize, ListFault>) -> io::Result<bool>
    ensures { IfOk result (λ broken. broken ≡ not (is_ok end)) }
{
    match end {
        Ok(_) => Ok(false),
        Err(fault) => {
            page.line(format_args!("broken: {}", fault.behind(start)))?;
            Ok(true)
        }
    }
}

/// The DSS 1 elements inside an access transport whose contents begin at a place.
fn show_nested(rt: &HostRuntime, start: usize, contents: &[u8]) -> io::Result<Found> {
    let page = Page { rt, indent: NESTED };
    show_elements::<Dss1>(page, start, contents)?;
    let broken = show_fault(page, start, elements::check::<Dss1>(contents))?;
    Ok(Found {
        elements: Elements::of::<Dss1>(contents).count(),
        broken,
        ..Found::default()
    })
}

/// The parameters of a list whose first octet stands at a place, with the elements inside an access transport; what was found in those.
fn show_list(page: Page<'_>, start: usize, list: &[u8]) -> io::Result<Found> {
    let mut inside = Found::default();
    for element in Elements::of::<Isup>(list) {
        show_element::<Isup>(page, start, element)?;
        if let (ACCESS_TRANSPORT, Some(contents)) = (element.tag, element.contents) {
            let place = start.saturating_add(element.place).saturating_add(2);
            let nested = show_nested(page.rt, place, contents)?;
            inside.elements = inside.elements.saturating_add(nested.elements);
            inside.broken = inside.broken || nested.broken;
        }
    }
    Ok(inside)
}

/// What came of writing a message again; whether it is the same.
fn show_again(
    page: Page<'_>,
    again: Result<usize, RewriteFault>,
    broken: bool,
) -> io::Result<bool> {
    match again {
        Ok(n) => {
            let far = if broken { " as far as it is whole" } else { "" };
            page.line(format_args!("written again{far}: the same {}", Count(n)))?;
            Ok(true)
        }
        Err(fault) => {
            page.line(fault)?;
            Ok(false)
        }
    }
}

// Runtime and octets are what a program's `Kind` is given to show.
/// A DSS 1 message.
pub fn show_dss1(rt: &HostRuntime, octets: &[u8]) -> io::Result<Found>
    ensures { IfOk result (λ found. Dss1Found octets.now found) }
{
    let page = Page { rt, indent: INDENT };
    let message = match Message::read(octets) {
        Ok(message) => message,
        Err(fault) => {
            page.line(format_args!("bad header: {fault}"))?;
            return Ok(Found {
                broken: true,
                ..Found::default()
            });
        }
    };
    let header = Octets(message.header);
    page.line(format_args!("header  {header}  {message}"))?;
    let apart = take_apart::<Dss1>(message.list, rt.alloc())?;
    let items = apart.items.as_slice();
    show_elements::<Dss1>(page, HEADER, message.list)?;
    let broken = show_fault(page, HEADER, apart.end)?;
    let whole = rewrite::reach(apart.end).saturating_add(HEADER);
    let mut buf = vec![in rt.alloc(); 0u8; octets.len()]?;
    let again = rewrite::dss1(buf.as_mut_slice(), octets, message.header, items, whole);
    let same = show_again(page, again, broken)?;
    Ok(Found {
        elements: items.len(),
        broken,
        same,
        ..Found::default()
    })
}

/// The end of a list of parameters whose first octet stands at a place, and what comes after it.
fn show_end(
    page: Page<'_>,
    start: usize,
    octets: &[u8],
    end: Result<usize, ListFault>,
) -> io::Result<()> {
    let Ok(n) = end else {
        return Ok(());
    };
    let place = start.saturating_add(n).saturating_sub(1);
    let name = names::parameter(0x00);
    page.line(format_args!("{place:>6}  00  {name:<33}    -  one octet"))?;
    let more = octets.len().saturating_sub(n);
    if more > 0 {
        page.line(format_args!("ignored: {} after the end tag", Count(more)))?;
    }
    Ok(())
}

/// A list of optional parameters of ISUP whose first octet stands at a place.
pub fn show_parameters(rt: &HostRuntime, start: usize, octets: &[u8]) -> io::Result<Found>
    ensures { IfOk result (λ found. ParametersFound octets.now found) }
{
    let page = Page { rt, indent: INDENT };
    let apart = take_apart::<Isup>(octets, rt.alloc())?;
    let items = apart.items.as_slice();
    let inside = show_list(page, start, octets)?;
    show_end(page, start, octets, apart.end)?;
    let broken = show_fault(page, start, apart.end)?;
    let mut buf = vec![in rt.alloc(); 0u8; octets.len().saturating_add(1)]?;
    let again = rewrite::isup(buf.as_mut_slice(), octets, items, apart.end);
    let same = show_again(page, again, broken)?;
    Ok(Found {
        elements: items.len().saturating_add(inside.elements),
        broken: broken || inside.broken,
        same,
        // Not `..Found::default()`: with that the answer to this contract stays open.
        refused: false,
    })
}

/// A field of an ISUP message at a place: its name, and what it says, coded as the parameter with a tag.
pub fn show_field(
    rt: &HostRuntime,
    place: usize,
    name: &str,
    tag: u8,
    field: &[u8],
) -> io::Result<()> {
    let page = Page { rt, indent: INDENT };
    let count = field.len();
    let octets = Octets(field);
    page.line(format_args!("{place:>6}      {name:<33}  {count:>3}  {octets}"))?;
    show_meaning(page, <Isup as Described>::meaning(tag, field))
}
