//! What is wrong with a query, and which of several mistakes is told.

ghost use Rattle.std.specs.Prelude.{◌≡◌};
ghost use Rattle.om_typing.specs.Mistakes as spec;

use om_value::Wrong;

/// A rule of typing that a query breaks.
#[derive(Clone, Copy, Debug, PartialEq, Eq)]
pub enum Rule {
    /// A table that isn't the relation `states`.
    NoTable,
    /// A column that there isn't, or one of a range variable that there isn't.
    NoColumn,
    /// A name that may mean several things.
    Ambiguous,
    /// A variable whose type isn't scalar.
    NoScalar,
    /// A text where a number is asked for, or the other way round; or an address in the memory of one
    /// row that is computed from another.
    Clash,
    /// A number that may leave the range that is asked for.
    Range,
    /// A column that isn't grouped, or a memory form, beside groups.
    NotGrouped,
    /// COUNT over several range variables.
    CountOverJoin,
    /// A fifth table.
    TooManyTables,
    /// A divisor that is no numeral above 0.
    Divisor,
    /// A key that is none of the columns of the result, or may be several.
    Position,
}

impl Rule {
    /// Its place among the rules that are broken at one place.
    fn rank(self) -> u8
        ensures { result ≡ spec.rank self }
    {
        match self {
            Rule::NoTable => 0,
            Rule::NoColumn => 1,
            Rule::Ambiguous => 2,
            Rule::NoScalar => 3,
            Rule::Clash => 4,
            Rule::Range => 5,
            Rule::NotGrouped => 6,
            Rule::CountOverJoin => 7,
            Rule::TooManyTables => 8,
            Rule::Divisor => 9,
            Rule::Position => 10,
        }
    }

    /// The rule by which an operator is refused.
    pub(crate) fn of(wrong: Wrong) -> Rule
        ensures { result ≡ spec.rule_of wrong }
    {
        match wrong {
            Wrong::Clash => Rule::Clash,
            Wrong::Range => Rule::Range,
            Wrong::Divisor => Rule::Divisor,
        }
    }
}

/// A mistake in a query.
#[derive(Clone, Copy, Debug, PartialEq, Eq)]
pub struct Mistake {
    /// The offset of the token that it is told at, in bytes from the start of the text.
    pub at: u32,
    pub rule: Rule,
}

impl Mistake {
    /// Whether it is told before another: where it stands first, or at the same place and its rule does.
    fn leads(&self, other: &Mistake) -> bool
        ensures { result ≡ spec.leads self.now other.now }
    {
        self.at < other.at || (self.at == other.at && self.rule.rank() <= other.rule.rank())
    }
}

/// The mistake that is told of those found so far.
#[derive(Clone, Copy, Debug, PartialEq, Eq)]
pub(crate) struct Foremost {
    pub mistake: Option<Mistake>,
}

impl Foremost {
    /// Takes another mistake into account.
    pub fn note(&mut self, at: u32, rule: Rule)
        ensures { self.new ≡ spec.noted self.old (spec.mistake at rule) }
    {
        let mistake = Mistake { at, rule };
        match &self.mistake {
            Some(found) => {
                if !found.leads(&mistake) {
                    self.mistake = Some(mistake);
                }
            }
            None => self.mistake = Some(mistake),
        }
    }

    /// Takes another mistake into account, if there is one.
    pub fn note_if(&mut self, is_there: bool, at: u32, rule: Rule)
        ensures { self.new ≡ spec.noted_all self.old (spec.mistake_if is_there at rule) }
    {
        if is_there {
            self.note(at, rule);
        }
    }
}
