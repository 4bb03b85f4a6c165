ghost use Rattle.std.specs.Prelude.{◌≡◌, ℕ, ◌+◌, ◌≤◌, length};
ghost use Rattle.side.specs.Limits.{cost};

mod building;

/// The most octets that the parts of one message take, each with its tag and its length.
pub const MOST_PARTS: usize = 200;

/// The most octets of user-user contents.
pub const MOST_USER_USER: usize = 129;

/// How many octets each part holds, within the limits; 0 is a part that is not there.
#[derive(Clone, Copy)]
struct Lengths {
    calling: usize,
    called: usize,
    low: usize,
    high: usize,
    user: usize,
    ghost total: { cost calling + cost called + cost low + cost high + cost user ≤ 200 },
    ghost few: { user ≤ 129 },
}

/// The parts that are carried from end to end unchanged: subaddresses, compatibilities and user-user.
///
/// Their contents stand one behind another, in the order of their tags.
// An array of fixed size: readings are copied, and nothing is allocated for them.
// Not `Held`: there is more to say of these octets, for five contents stand in them one behind another.
#[derive(Clone, Copy)]
pub struct Parts {
    octets: [u8; 200],
    lengths: Lengths,
    ghost whole: { length octets ≡ 200 },
}
