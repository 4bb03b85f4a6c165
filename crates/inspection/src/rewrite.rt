//! Writes the whole elements of a message again, and compares.
ghost use Rattle.std.specs.Prelude.{◌≡◌, ◌≤◌, true, ◌++◌, length, take, IfOk, Ok, MatchResult};
ghost use Rattle.inspection.specs.declared.rewrite.RewriteFault.TheVariants.{Differs};
ghost use Rattle.lists.specs.Apart.{reach as reaches};
ghost use Rattle.writer.specs.Items.{written as laid};

use crate::types::Count;
use elements::types::ListFault;
use elements::{Dss1, Isup};
use std::fmt;
use writer::Open;
use writer::types::{Item, WriteFault};

/// Why the whole elements of a message, written again, are not the octets that were read.
#[derive(Clone, Copy)]
pub enum RewriteFault {
    /// So many octets were written, and they are not the same.
    Differs(usize),
    /// The writer refused.
    Refused(WriteFault),
}

impl From<WriteFault> for RewriteFault {
    fn from(fault: WriteFault) -> RewriteFault {
        RewriteFault::Refused(fault)
    }
}

impl fmt::Display for RewriteFault {
    fn fmt<W: fmt::Write>(&self, f: &mut fmt::Formatter<W>) -> fmt::Result {
        match *self {
            RewriteFault::Differs(n) => write!(f, "written again: {}, not the same", Count(n)),
            RewriteFault::Refused(fault) => write!(f, "not written again: {fault}"),
        }
    }
}

/// How far a list is whole.
pub fn reach(end: Result<usize, ListFault>) -> usize
    ensures { result ≡ reaches end }
{
    end.unwrap_or_else(|fault| fault.place())
}

/// Whether what was written is the front of the octets, so many of them.
fn same(octets: &[u8], count: usize, written: &[u8]) -> bool
    ensures { result ≡ true → written.now ≡ take count octets.now }
{
    written.len() == count && octets.starts_with(written)
}

/// How many octets were written, if they are the front of the octets, so many of them.
fn compare(octets: &[u8], count: usize, written: &[u8]) -> Result<usize, RewriteFault>
    ensures { MatchResult result (λ n. (n ≡ length written.now) × (written.now ≡ take count octets.now)) (λ e. e ≡ Differs (length written.now)) }
{
    let length = written.len();
    if same(octets, count, written) {
        Ok(length)
    } else {
        Err(RewriteFault::Differs(length))
    }
}

// The buffer is lent, as the writer wants it; the items are what is written.
/// Writes a header and a list of DSS 1 elements from the front of a buffer.
fn write_dss1(buf: &mut [u8], header: &[u8], items: &[Item<'_>]) -> Result<usize, WriteFault>
    ensures octets { IfOk result (λ n. take n buf.new ≡ header.now ++ laid items.now) }
    ensures room { IfOk result (λ n. n ≤ length buf.new) }
{
    let open = Open::begin().octets(buf, header)?;
    let closed = open.list(Dss1).close_with(buf, items)?;
    Ok(closed.length())
}

/// Writes a DSS 1 message again, as far as its list is whole: `whole` octets, the header among them.
pub fn dss1(
    buf: &mut [u8],
    octets: &[u8],
    header: &[u8],
    items: &[Item<'_>],
    whole: usize,
) -> Result<usize, RewriteFault>
    ensures { IfOk result (λ n. take n buf.new ≡ take whole octets.now) }
{
    let n = write_dss1(buf, header, items)?;
    compare(octets, whole, &buf[..n])
}

/// Writes ISUP parameters again; where their end tag is missing, the one that is written is left out of the comparison.
pub fn isup(
    buf: &mut [u8],
    octets: &[u8],
    items: &[Item<'_>],
    end: Result<usize, ListFault>,
) -> Result<usize, RewriteFault>
    ensures { IfOk result (λ n. take n buf.new ≡ take (reaches end) octets.now) }
{
    let n = lists::write_list(Isup, buf, items)?;
    let kept = match end {
        Ok(_) => n,
        Err(_) => n.saturating_sub(1),
    };
    compare(octets, reach(end), &buf[..kept])
}
