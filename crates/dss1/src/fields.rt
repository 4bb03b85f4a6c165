//! The elements of a message that is to be written, held by value.

mod filling;
mod making;

use held::Held;
use side::parts::Parts;

/// What the elements of a message hold; none is an element that is left out.
#[derive(Clone, Copy)]
pub struct Fields {
    pub bearer: Held<11>,
    pub cause: Held<2>,
    pub progress: Held<2>,
    /// The type of a called number and up to 20 digits.
    pub number: Held<21>,
    pub parts: Parts,
}
