//! The versions of a spool's format.
ghost use Rattle.std.specs.Prelude.{◌≡◌, Some, IfSome};
ghost use Rattle.spool_pages.specs.View.{version_number};
ghost use Rattle.spool_pages.specs.declared.version.Version.{Version};

/// The version of a spool. The versions differ in how records encode an unknown length.
#[derive(Clone, Copy, Debug, PartialEq, Eq, Drop)]
pub enum Version {
    /// By eight bytes FF.
    One,
    /// By a tag after the space for metadata, with zeros as the length.
    Two,
}

impl Version {
    /// The version of this number, if there is one.
    pub fn of(number: u32) -> Option<Version>
        ensures known { (version : Version) → number ≡ version_number version → result ≡ Some version }
        ensures only { IfSome result (λ version. version_number version ≡ number) }
    {
        match number {
            1 => Some(Version::One),
            2 => Some(Version::Two),
            _ => None,
        }
    }

    /// The number on the state page.
    pub fn number(self) -> u32
        ensures { result ≡ version_number self }
    {
        match self {
            Version::One => 1,
            Version::Two => 2,
        }
    }
}
