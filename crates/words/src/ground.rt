// The grounds on which a service turns its input back, each with its number.
ghost use Rattle.std.specs.Prelude.{◌≡◌, Some, decimal};
ghost use Rattle.words.specs.Code.Ground.{number_of};

use std::fmt;

// Which test is not passed: of reading (1 to 6), of what expansion is lent (7 to 10), of the expressions, forms and rules of a recipe
// (11 to 15), of a macro's use (16 to 18), of core words and their text (19, 20), of a supplier's text (21, 22) and of an evaluation (25 to 27).
#[derive(Clone, Copy, Debug, PartialEq, Eq)]
pub enum Ground {
    ShortTables,
    LongText,
    BadToken,
    NumberOutOfRange,
    Unbalanced,
    TooMany,
    BadLayout,
    TooMuchFuel,
    SmallTables,
    BadOperations,
    Unbound,
    BareForm,
    BadForm,
    DoubleName,
    BadRules,
    NoRule,
    UnequalLists,
    OutOfFuel,
    NoTerm,
    NoRoom,
    OutsideGrammar,
    OpenName,
    WrongKind,
    WrongCount,
    OutOfBudget,
}

impl Ground {
    // The number that documents and callers know it by.
    pub fn number(self) -> u32
        ensures { result ≡ number_of self }
    {
        match self {
            Ground::ShortTables => 1,
            Ground::LongText => 2,
            Ground::BadToken => 3,
            Ground::NumberOutOfRange => 4,
            Ground::Unbalanced => 5,
            Ground::TooMany => 6,
            Ground::BadLayout => 7,
            Ground::TooMuchFuel => 8,
            Ground::SmallTables => 9,
            Ground::BadOperations => 10,
            Ground::Unbound => 11,
            Ground::BareForm => 12,
            Ground::BadForm => 13,
            Ground::DoubleName => 14,
            Ground::BadRules => 15,
            Ground::NoRule => 16,
            Ground::UnequalLists => 17,
            Ground::OutOfFuel => 18,
            Ground::NoTerm => 19,
            Ground::NoRoom => 20,
            Ground::OutsideGrammar => 21,
            Ground::OpenName => 22,
            Ground::WrongKind => 25,
            Ground::WrongCount => 26,
            Ground::OutOfBudget => 27,
        }
    }
}

// Its number is what is printed of it.
impl fmt::Display for Ground {
    ghost output = { λ ground. Some (decimal (number_of ground)) };

    fn fmt<W: fmt::Write>(&self, f: &mut fmt::Formatter<W>) -> fmt::Result {
        let number = self.number();
        write!(f, "{number}")
    }
}
