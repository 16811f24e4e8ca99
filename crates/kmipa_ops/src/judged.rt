//! The attributes that are judged.

/// A judged attribute, by its tag (KMIP 2.1, the Tag enumeration).
#[derive(Clone, Copy, PartialEq, Eq)]
pub enum Judged {
    ActivationDate = 0x42_0001,
    CompromiseDate = 0x42_0020,
    CryptographicAlgorithm = 0x42_0028,
    CryptographicLength = 0x42_002A,
    CryptographicUsageMask = 0x42_002C,
    DeactivationDate = 0x42_002F,
    DestroyDate = 0x42_0033,
    InitialDate = 0x42_0039,
    Name = 0x42_0053,
    ObjectType = 0x42_0057,
    State = 0x42_008D,
}

impl Judged {
    ghost use Rattle.std.specs.Prelude.{◌≡◌};
    ghost use Rattle.kmipa_ops.specs.GetAttributes.{judged_tag};

    /// Its tag.
    pub(crate) fn tag(self) -> u32
        ensures { result ≡ judged_tag self }
    {
        self as u32
    }
}
