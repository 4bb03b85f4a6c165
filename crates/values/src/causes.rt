ghost use Rattle.std.specs.Prelude.{◌≡◌};
ghost use Rattle.values.specs.Causes.{cause_in, progress_in};

/// The location and the value of a cause, or `None` where it is cut short.
/// The value stands after an extension octet where the first octet says that one follows.
pub fn cause(contents: &[u8]) -> Option<(u8, u8)>
    ensures { result ≡ cause_in contents.now }
{
    match contents {
        [first, value, ..] if *first >= 0x80 => Some((*first % 16, *value % 128)),
        [first, _extension, value, ..] if *first < 0x80 => Some((*first % 16, *value % 128)),
        _ => None,
    }
}

/// The location and the description of a progress indicator, or `None` where it is cut short.
pub fn progress(contents: &[u8]) -> Option<(u8, u8)>
    ensures { result ≡ progress_in contents.now }
{
    match contents {
        [first, description, ..] => Some((*first % 16, *description % 128)),
        _ => None,
    }
}
