// What an expansion carries from one expression to the next, and how an expression and one turn of it end.

ghost use Rattle.std.specs.Prelude.{◌≡◌, ◌+◌, ◌^◌, ◌<◌};
ghost use Rattle.words.specs.Code.Ground.{number_of};
ghost use Rattle.turns.specs.Numbers.{at_start, moved, widened, grown, stepped};
ghost use Rattle.turns.specs.Answers.{Refuses, Unbegun};

use words::ground::Ground;

// The numbers that an expansion carries: how far the arena and the core words reach, the two counts, variables and macros so far.
#[derive(Clone, Copy)]
pub struct Reached {
    pub top: u32,
    pub at: u32,
    pub steps: u32,
    pub sum: u32,
    pub variables: u32,
    pub macros: u32,
}

// Refused: the ground, and the counts of completed steps.
#[derive(Clone, Copy)]
pub struct Refused {
    pub ground: Ground,
    pub steps: u32,
    pub sum: u32,
}

// Before the first step.
impl From<Ground> for Refused {
    ghost from_gives = { λ g x. Unbegun g x };

    fn from(ground: Ground) -> Self {
        Refused {
            ground,
            steps: 0,
            sum: 0,
        }
    }
}

// What is left of an expression after one turn: another expression in its place, operands, or nothing; the first two by node,
// wrap and numbers.
#[derive(Clone, Copy)]
pub enum Turn {
    Again(u32, u32, Reached),
    Operands(u32, u32, Reached),
    Over(Reached),
}

// What is done changes them so; specs/Numbers.antt has a definition for each.
impl Reached {
    // Before the first turn: the arena is laid out.
    #[tactic(auto, unfolding(crate::specs::Numbers::at_start))]
    pub fn start(top: u32) -> Self
        ensures { result ≡ at_start top }
    {
        Reached {
            top,
            at: 0,
            steps: 0,
            sum: 0,
            variables: 0,
            macros: 0,
        }
    }

    // Core words reach to `at`.
    #[tactic(auto, unfolding(crate::specs::Numbers::moved))]
    pub fn moved(self, at: u32) -> Self
        ensures { result ≡ moved at self }
    {
        Reached { at, ..self }
    }

    // n new variables, whose binders end at `top`, and core words to `at`.
    #[tactic(auto, unfolding(crate::specs::Numbers::widened))]
    pub fn widened(self, top: u32, at: u32, n: u32) -> Self
        requires { self.variables + n < 2 ^ 32 }
        ensures { result ≡ widened top at n self }
    {
        Reached {
            top,
            at,
            variables: self.variables + n,
            ..self
        }
    }

    // n new macros, whose rules end at `top`.
    #[tactic(auto, unfolding(crate::specs::Numbers::grown))]
    pub fn grown(self, top: u32, n: u32) -> Self
        requires { self.macros + n < 2 ^ 32 }
        ensures { result ≡ grown top n self }
    {
        Reached {
            top,
            macros: self.macros + n,
            ..self
        }
    }

    // A step that costs n, whose cells end at `top`.
    pub fn stepped(self, top: u32, n: u32) -> Self
        requires { (self.steps + 1 < 2 ^ 32) × (self.sum + n < 2 ^ 32) }
        ensures { result ≡ stepped top n self }
    {
        Reached {
            top,
            steps: self.steps + 1,
            sum: self.sum + n,
            ..self
        }
    }

    // Refused, with the counts of completed steps.
    pub fn refused(self, why: Ground) -> Refused
        ensures { Refuses (number_of why) self result }
    {
        Refused {
            ground: why,
            steps: self.steps,
            sum: self.sum,
        }
    }
}
