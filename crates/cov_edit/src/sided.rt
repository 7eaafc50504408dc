// An edit with its side.
use crate::Edit;
use cov_expr::Expr;

/// An edit that applies in each choice on which its side is true and the ambition of its commit.
#[derive(Debug, Drop)]
pub struct Sided {
    pub side: Expr,
    pub edit: Edit,
}
