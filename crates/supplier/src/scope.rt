// The formals of the lambdas round an expression, the innermost last.
ghost use Rattle.std.specs.Prelude.{◌≡◌, ◌≤◌, ◌<◌, ltb, length};
ghost use Rattle.supplier.specs.Scope.{place_after, innermost, variable_in};

// Its name in the text and our variable.
#[derive(Clone, Copy)]
pub struct Formal {
    pub name: usize,
    pub variable: usize,
}

// The innermost formal of this name among the first `top`.
pub fn innermost(scope: &[Formal], top: usize, name: usize) -> Option<usize>
    requires { top ≤ length scope.now }
    ensures { place_after result ≡ innermost name scope.now top }
{
    scope[..top].iter().rposition(|f| f.name == name)
}

// One of the formals from place `from` on has this name, among the first `top`.
pub fn is_bound(scope: &[Formal], from: usize, top: usize, name: usize) -> bool
    requires { top ≤ length scope.now }
    ensures { result ≡ ltb from (innermost name scope.now top) }
{
    match innermost(scope, top, name) {
        Some(k) => from <= k,
        None => false,
    }
}

pub fn variable(scope: &[Formal], k: usize) -> usize
    requires { k < length scope.now }
    ensures { result ≡ variable_in scope.now k }
{
    scope[k].variable
}
