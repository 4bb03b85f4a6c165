//! Reads messages in hex, one a line, and has each shown.
ghost use Rattle.std.specs.Prelude.{◌≡◌, take};

use crate::types::{Count, Kind, Tally};
use std::alloc::Global;
use std::io::Read;
use std::{fmt, io};
use text::{Characters, HexFault, Lines};

/// The most characters that are shown of a word that is not known.
const MOST_SHOWN: usize = 32;

/// Why a line is not a message.
#[derive(Clone, Copy)]
enum LineFault<'a> {
    /// Its first word names no kind of message.
    UnknownWord(&'a [u8]),
    /// The text after its word is not hex; so many characters stand before that text.
    Octets(HexFault, usize),
}

/// The column of a place in a text before which so many characters stand, counted from 1.
fn column(before: usize, place: usize) -> usize {
    before.saturating_add(place).saturating_add(1)
}

impl fmt::Display for LineFault<'_> {
    fn fmt<W: fmt::Write>(&self, f: &mut fmt::Formatter<W>) -> fmt::Result {
        match *self {
            LineFault::UnknownWord(word) => {
                let front = Characters(shown(word));
                write!(f, "unknown word \"{front}\"")
            }
            LineFault::Octets(HexFault::NotHex(place), before) => {
                write!(f, "no hex digit in column {}", column(before, place))
            }
            LineFault::Octets(HexFault::OddDigit(place), before) => write!(
                f,
                "a hex digit without its second in column {}",
                column(before, place)
            ),
            LineFault::Octets(HexFault::NoMemory, _) => f.write_str("no memory for its octets"),
        }
    }
}

// By its length and not by `get(..MOST_SHOWN)` and `unwrap_or`: that leaves the proof of the contract open.
/// As much of a word as is shown.
fn shown(word: &[u8]) -> &[u8]
    ensures { result.now ≡ take 32 word.now }
{
    if word.len() > MOST_SHOWN {
        &word[..MOST_SHOWN]
    } else {
        word
    }
}

/// A message as a line gives it: the word that names its kind, and its octets.
#[derive(Drop)]
struct Message<'a, K> {
    word: &'a [u8],
    kind: K,
    octets: Vec<u8>,
}

impl<'a, K: Kind> Message<'a, K> {
    /// Reads a line, which holds a message, or nothing but a comment, or something that is wrong.
    fn read(line: &'a [u8], heap: Global) -> Result<Option<Message<'a, K>>, LineFault<'a>> {
        let line = text::without_comment(line);
        let (word, rest) = text::first_word(line);
        if word.is_empty() {
            return Ok(None);
        }
        let kind = K::of(word).ok_or(LineFault::UnknownWord(word))?;
        let before = line.len().saturating_sub(rest.len());
        let octets = text::read_octets(rest, heap).map_err(|fault| LineFault::Octets(
            fault, before,
        ))?;
        Ok(Some(Message { word, kind, octets }))
    }
}

/// Shows one line of the input, and counts it.
fn show_line<K: Kind>(
    rt: &HostRuntime,
    number: usize,
    line: &[u8],
    tally: &mut Tally,
) -> io::Result<()> {
    match Message::<K>::read(line, rt.alloc()) {
        Ok(None) => Ok(()),
        Ok(Some(message)) => {
            let word = Characters(message.word);
            println!(rt; "line {number}: {word}, {}", Count(message.octets.len()))?;
            let found = message.kind.show(rt, message.octets.as_slice())?;
            tally.message(found);
            Ok(())
        }
        Err(fault) => {
            tally.error();
            println!(rt; "error line {number}: {fault}")
        }
    }
}

/// Shows the lines of a text, and counts what they hold.
pub fn inspect_text<K: Kind>(rt: &HostRuntime, text: &[u8]) -> io::Result<Tally> {
    let mut tally = Tally::default();
    for (index, line) in Lines::of(text).enumerate() {
        show_line::<K>(rt, index.saturating_add(1), line, &mut tally)?;
    }
    Ok(tally)
}

/// Shows the messages that stand on standard input, one a line, and counts what they hold.
pub fn inspect<K: Kind>(rt: &HostRuntime) -> io::Result<Tally> {
    let mut input = Vec::new(rt.alloc());
    rt.stdin().read_to_end(&mut input)?;
    inspect_text::<K>(rt, input.as_slice())
}
