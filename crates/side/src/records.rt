use crate::kinds::Phase;

// Three records and no generic one: they keep different things, and a host reads the fields by their names.
/// What is kept of a DSS 1 call place: its phase and the cause value last heard.
#[derive(Clone, Copy)]
pub struct Dss1Record {
    pub phase: Phase,
    pub cause: Option<u8>,
}

/// Who seized a circuit.
#[derive(Clone, Copy, PartialEq, Eq, Debug)]
pub enum Seizer {
    FarEnd,
    We,
}

/// What is kept of a circuit: its phase and who last seized it.
#[derive(Clone, Copy)]
pub struct CircuitRecord {
    pub phase: Phase,
    pub seized: Option<Seizer>,
}

/// A number as a record keeps it: its digits as IA5 characters, padded with zeros.
// An array and a count: a record is of fixed size and copied whole, and the host that lends it reads it as it lies.
// Not `Digits`: a host may lend a record with any octets in it, and these need not be digits. Not `Held`: its fields are private.
#[derive(Clone, Copy)]
pub struct Dialled {
    pub octets: [u8; 20],
    pub count: usize,
}

/// What is kept of a line: its phase and the number that was last dialled on it.
#[derive(Clone, Copy)]
pub struct LineRecord {
    pub phase: Phase,
    pub dialled: Option<Dialled>,
}
