//! The lines of a host: a loan of its records, one message, and the records known afterwards.
#![tactic(auto)]

ghost use Rattle.std.specs.Prelude.{◌≡◌, ◌++◌, length, take, drop};
ghost use Rattle.book.specs.Legs.{opened};
ghost use Rattle.line_host.specs.Fresh.{one_message};

use book::LegBook;
use line::Line;
use side::kinds::Refusal;
use side::records::LineRecord;
use side::{Side, Signalling};

/// Opens lines over a host's records, takes one message on them, and ends the loan: the host's own
/// records then hold what happened, and those beyond the thirty-second are as they were.
pub fn take_on_fresh_lines(
    records: &mut [LineRecord],
    message: &[u8],
    reply: &mut [u8],
) -> Result<usize, Refusal>
    ensures answered { result ≡ (one_message records.old message.now reply.old).answer }
    ensures legs { take 32 records.new ≡ (one_message records.old message.now reply.old).records }
    ensures beyond { drop 32 records.new ≡ drop 32 records.old }
    ensures reply { reply.new ≡ (one_message records.old message.now reply.old).buffer }
{
    let mut lines: LegBook<'_, Line> = LegBook::open(records);
    let reading = lines.read(message)?;
    lines.take(&reading, reply)
}
