//! Whole lists of elements: written from a table, and read back.
#![tactic(auto)]

ghost use Rattle.std.specs.Prelude.{◌≡◌, ◌++◌, length, take, IfOk, MatchResult};
ghost use Rattle.writer.specs.Written.{ending, Takes, Refuses};
ghost use Rattle.writer.specs.Items.{written, table_fault};
ghost use Rattle.lists.specs.ReadBack.{ReadsBack};
ghost use Rattle.lists.specs.Apart.{TakenApart};

pub mod types;

use elements::{Coding, Elements};
use std::alloc::{AllocError, Global};
use types::Apart;
use writer::Open;
use writer::types::{Item, WriteFault};

/// Writes a list from the front of a buffer, all of it or nothing, and answers its length.
///
/// Read again, the list gives back each element's contents and none for a tag that was not written.
pub fn write_list<C: Coding>(
    coding: C,
    buf: &mut [u8],
    items: &[Item<'_>],
) -> Result<usize, WriteFault>
    ensures wrote { MatchResult result (λ n. Takes (table_fault C.rule 0 0 items.now (length buf.old)) (written items.now ++ ending C.rule.end) 0 buf.old n buf.new) (λ e. Refuses (table_fault C.rule 0 0 items.now (length buf.old)) e buf.old buf.new) }
    ensures reads { IfOk result (λ n. ReadsBack C.rule items.now (take n buf.new)) }
{
    let closed = Open::begin().list(coding).close_with(buf, items)?;
    Ok(closed.length())
}

/// Takes a list apart: its whole elements in order, as far as the first fault or the end.
///
/// Written again they are the same octets, and so is the end of a list that is whole.
pub fn take_apart<'a, C: Coding>(list: &'a [u8], heap: Global) -> Result<Apart<'a>, AllocError>
    ensures { IfOk result (λ apart. TakenApart C.rule list.now apart.items.items apart.end) }
{
    let mut items = Vec::new(heap);
    let mut elements = Elements::of::<C>(list);
    // By next: over a lent iterator the proof of the walk did not close; after it nothing was known of the elements.
    while let Some(element) = elements.next() {
        items.push(Item::from(element))?;
    }
    Ok(Apart {
        items,
        end: elements.end(),
    })
}
