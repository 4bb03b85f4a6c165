/// Why no octets could be read, with the place in the text, counted from 0.
#[derive(Clone, Copy, PartialEq, Eq, Debug)]
pub enum HexFault {
    /// A character that is neither a hex digit nor a blank.
    NotHex(usize),
    /// A hex digit that has no second one after it.
    OddDigit(usize),
    /// There is no memory for the octets.
    NoMemory,
}
