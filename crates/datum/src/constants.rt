// Whether a pattern's constant matches another: by kind, value and places.
ghost use Rattle.std.specs.Prelude.{◌≡◌};
ghost use Rattle.datum.specs.Constant as C;
ghost use Rattle.datum.specs.ConstantLaws.{made};

// The kind of decimals.
pub use crate::kinds::DECIMAL;

#[tactic(auto, unfolding(crate::specs::Constant::matches))]
pub fn matches(kind: u32, first: u32, second: u32, kind2: u32, first2: u32, second2: u32) -> bool
    ensures { result ≡ C.matches (made kind first second) (made kind2 first2 second2) }
{
    kind == kind2 && first == first2 && second == second2
}
