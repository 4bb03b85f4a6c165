ghost use Rattle.std.specs.Prelude.{◌≡◌, ℕ, ◌+◌, ◌≤◌, [], ◌++◌, length, if◌then◌else◌, Some, None, nat_le};
ghost use Rattle.std.specs.Option.{option_map};
ghost use Rattle.held.specs.Held.{octets_of};

use crate::Held;

impl<const N: usize> Held<N> {
    /// Nothing.
    pub fn none() -> Held<N>
        ensures { octets_of result ≡ [] }
    {
        Held {
            octets: [0; N],
            count: 0,
        }
    }

    /// These octets, if they are at most `N`.
    pub fn of(octets: &[u8]) -> Option<Held<N>>
        ensures { option_map octets_of result ≡ (if nat_le (length octets.now) N then Some octets.now else None) }
    {
        Held::none().then(octets)
    }

    /// What is held and more behind it, if together they are at most `N`.
    pub fn then(mut self, more: &[u8]) -> Option<Held<N>>
        ensures { option_map octets_of result ≡ (if nat_le (length (octets_of self.entry) + length more.now) N then Some (octets_of self.entry ++ more.now) else None) }
    {
        let start = self.count;
        if more.len() > N - start {
            return None;
        }
        let end = start + more.len();
        self.octets[start..end].copy_from_slice(more);
        self.count = end;
        Some(self)
    }

    /// Its octets.
    pub fn as_octets(&self) -> &[u8]
        ensures are { result.now ≡ octets_of self.now }
        ensures few { length result.now ≤ N }
    {
        &self.octets[..self.count]
    }
}
