//! The kinds of findings.
ghost use Rattle.std.specs.Prelude.{◌≡◌};
ghost use Rattle.lint_sentences.specs.Kind as spec;

/// A kind of finding.
#[derive(Clone, Copy)]
pub enum Kind {
    /// A form is set aside.
    Aside,
    /// Something is not known to do the same as what it stands for.
    Wrong,
    /// Nothing comes to an alternative.
    Unreached,
    /// No form matches an instruction, and none makes it.
    Missing,
    /// What stands in the place of an instruction has no form.
    Unmatched,
    /// A form matches an instruction, and no alternative of it can be reached.
    Untaken,
    /// Reload or the frame ask for what no form does, or it is refused for another reason.
    Cannot,
    /// A member of a constraint admits nothing.
    Idle,
}

impl Kind {
    /// The word for it.
    pub fn word(self) -> &'static [u8]
        ensures { result.now ≡ spec.word_of self }
    {
        match self {
            Kind::Aside => b"aside",
            Kind::Wrong => b"wrong",
            Kind::Unreached => b"unreached",
            Kind::Missing => b"missing",
            Kind::Unmatched => b"unmatched",
            Kind::Untaken => b"untaken",
            Kind::Cannot => b"cannot",
            Kind::Idle => b"idle",
        }
    }

    /// Whether two are the same.
    pub(crate) fn same(self, other: Kind) -> bool
        ensures { result ≡ spec.is_kind self other }
    {
        match (self, other) {
            (Kind::Aside, Kind::Aside) => true,
            (Kind::Wrong, Kind::Wrong) => true,
            (Kind::Unreached, Kind::Unreached) => true,
            (Kind::Missing, Kind::Missing) => true,
            (Kind::Unmatched, Kind::Unmatched) => true,
            (Kind::Untaken, Kind::Untaken) => true,
            (Kind::Cannot, Kind::Cannot) => true,
            (Kind::Idle, Kind::Idle) => true,
            _ => false,
        }
    }
}
