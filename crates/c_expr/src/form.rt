// Which expressions are read.
ghost use Rattle.std.specs.Prelude.{◌≡◌};
ghost use Rattle.c_expr.specs.Parser as spec;

/// Which expressions are read.
#[derive(Clone, Copy, Drop)]
pub enum ExprForm {
    /// All of them.
    Expr,
    /// Those without a comma at their top.
    Assign,
    /// Those without a comma or an assignment at their top.
    Cond,
}

impl ExprForm {
    /// The level of the form.
    pub(crate) fn level(self) -> u32
        ensures { result ≡ spec.form_level self }
    {
        match self {
            ExprForm::Expr => 0,
            ExprForm::Assign => 1,
            ExprForm::Cond => 2,
        }
    }
}
