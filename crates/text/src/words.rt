ghost use Rattle.std.specs.Prelude.{◌≡◌, ◌<◌, [], length, MatchOption};
ghost use Rattle.text.specs.Parts.{blank, without_return, line_in, after_line, word_in, after_word, up_to_comment};
ghost use Rattle.std.specs.Iterator.{at_most};

/// Whether a character is a blank: a space or a tab.
pub fn is_blank(c: u8) -> bool
    ensures { result ≡ blank c }
{
    c == b' ' || c == b'\t'
}

/// A line without the carriage return at its end, if there is one.
fn without_return(line: &[u8]) -> &[u8]
    ensures { result.now ≡ without_return line.now }
{
    line.strip_suffix(b"\r").unwrap_or(line)
}

/// The first line of a text, without its end, and what comes after it; none where there is no text.
pub fn next_line(text: &[u8]) -> Option<(&[u8], &[u8])>
    ensures { MatchOption result (text.now ≡ []) (λ x. (x.0.now ≡ line_in text.now) × (x.1.now ≡ after_line text.now) × (length x.1.now < length text.now)) }
{
    if text.is_empty() {
        return None;
    }
    match text.iter().position(|c| *c == b'\n') {
        Some(n) => Some((without_return(&text[..n]), &text[n + 1..])),
        None => Some((without_return(text), &[])),
    }
}

/// The lines of a text, one by one.
#[derive(Drop)]
pub struct Lines<'a> {
    rest: &'a [u8],
}

impl<'a> Lines<'a> {
    /// The lines of a text.
    pub fn of(text: &'a [u8]) -> Lines<'a>
        ensures { result.rest.now ≡ text.now }
    {
        Lines { rest: text }
    }
}

impl<'a> Iterator for Lines<'a> {
    type Item = &'a [u8];

    ghost remaining = { λ s. at_most (length s.rest.now) };

    ghost next_gives = { λ s r t. MatchOption r (s.rest.now ≡ []) (λ x. (x.now ≡ line_in s.rest.now) × (t.rest.now ≡ after_line s.rest.now)) };

    fn next(&mut self) -> Option<&'a [u8]> {
        let (line, rest) = next_line(self.rest)?;
        self.rest = rest;
        Some(line)
    }
}

/// A line as far as the first `#`.
pub fn without_comment(line: &[u8]) -> &[u8]
    ensures { result.now ≡ up_to_comment line.now }
{
    let n = line.iter().position(|c| *c == b'#').unwrap_or(line.len());
    &line[..n]
}

/// The first word of a line, which ends at a blank, and what comes after it.
pub fn first_word(line: &[u8]) -> (&[u8], &[u8])
    ensures { (result.0.now ≡ word_in line.now) × (result.1.now ≡ after_word line.now) }
{
    let start = line
        .iter()
        .position(|c| !is_blank(*c))
        .unwrap_or(line.len());
    let from_word = &line[start..];
    let n = from_word
        .iter()
        .position(|c| is_blank(*c))
        .unwrap_or(from_word.len());
    from_word.split_at(n)
}
