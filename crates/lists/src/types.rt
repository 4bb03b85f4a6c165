use elements::types::ListFault;
use writer::types::Item;

/// A list taken apart.
#[derive(Drop)]
pub struct Apart<'a> {
    /// Its whole elements, in order.
    pub items: Vec<Item<'a>>,
    /// Its length, the end tag counted, or what is wrong with it.
    pub end: Result<usize, ListFault>,
}
