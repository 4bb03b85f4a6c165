//! Tables of elements in which an element with no contents is left out.
#![tactic(auto)]

ghost use Rattle.std.specs.Prelude.{◌≡◌};
ghost use Rattle.entries.specs.Entries.{entry_item};
ghost use Rattle.entries.specs.ReadBack.{EntriesReadBack};

use writer::types::Item;

/// The entry of a table: an element, or nothing where the contents are empty.
pub fn entry<'a>(tag: u8, contents: &'a [u8]) -> Item<'a>
    ensures { result ≡ entry_item tag contents.entry }
{
    if contents.is_empty() {
        Item::Absent
    } else {
        Item::Element(tag, contents)
    }
}

/// Every table whose tags ascend reads back: under each tag its contents, and the list is whole.
pub fn entries_read_back()
    ensures { EntriesReadBack }
{}
