ghost use Rattle.std.specs.Prelude.{◌≡◌, ◌≤◌, ◌<◌, ◌*◌, ◌^◌};
ghost use Rattle.cnf_problem.specs.Literals.{var as variable, positive as positive_lit, negated as negation};

use dg_base::Lit;

/// The greatest number of a variable, so that a literal fits 32 bits.
pub const MAX_VARS: u32 = 2147483647;

/// The literal that is always true in what `Gates` builds: variable 1.
pub const TRUE: Lit = Lit(2);

/// The literal that is this variable.
pub fn positive(var: u32) -> Lit
    requires { var ≤ MAX_VARS }
    ensures { result ≡ positive_lit var }
{
    Lit(2 * var)
}

/// The variable of a literal.
pub fn var(lit: Lit) -> u32
    ensures { result ≡ variable lit }
{
    lit.0 / 2
}

/// The literal of the same variable with the other sign.
pub fn negated(lit: Lit) -> Lit
    ensures value { result ≡ negation lit }
    ensures variable { variable result ≡ variable lit }
{
    Lit(lit.0 ^ 1)
}
