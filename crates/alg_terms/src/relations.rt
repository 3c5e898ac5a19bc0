ghost use Rattle.std.specs.Prelude.{◌≡◌};
ghost use Rattle.alg_terms.specs.Order.{rel_same};
ghost use Rattle.alg_terms.specs.Keys.{rel_key};

/// The relation of a statement.
#[derive(Clone, Copy, Debug, Default, PartialEq, Eq, PartialOrd, Ord, Hash)]
pub enum Rel {
    /// `=`
    #[default]
    Eq,
    /// `≠`
    Ne,
    /// `<`
    Lt,
    /// `≤`
    Le,
    /// `∣`, divides
    Dvd,
}

impl Rel {
    /// Whether this is that relation.
    pub fn is(self, other: Rel) -> bool
        ensures { result ≡ rel_same self other }
    {
        self.number() == other.number()
    }

    // its place in the order
    fn number(self) -> u8
        ensures { result ≡ rel_key self }
    {
        match self {
            Rel::Eq => 0,
            Rel::Ne => 1,
            Rel::Lt => 2,
            Rel::Le => 3,
            Rel::Dvd => 4,
        }
    }
}
