ghost use Rattle.std.specs.Prelude.{◌≡◌};
ghost use Rattle.flex_fields.specs.Versions.{is_since, is_between};

/// A version of a message, and whether that has the flexible encoding (KIP-482).
#[derive(Clone, Copy, Debug)]
pub struct Version {
    pub number: u16,
    pub flexible: bool,
}

impl Version {
    /// Whether a field stands here that stands from `first` on.
    pub fn is_since(self, first: u16) -> bool
        ensures { result ≡ is_since first self }
    {
        first <= self.number
    }

    /// Whether a field stands here that stands from `first` to `last`.
    pub fn is_between(self, first: u16, last: u16) -> bool
        ensures { result ≡ is_between first last self }
    {
        first <= self.number && self.number <= last
    }
}
