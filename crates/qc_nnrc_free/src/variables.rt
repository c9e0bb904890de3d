// The variables that are free in trees.
ghost use Rattle.std.specs.Prelude.{◌≡◌};
ghost use Rattle.qc_nnrc.specs.Free.{free_in};

use qc_nnrc::Nnrc;

/// Whether the variable is free in the tree: whether it stands anywhere where no binder binds it.
pub fn free_in(v: u128, e: &Nnrc) -> bool
    ensures { result ≡ free_in v e.now }
{
    match e {
        Nnrc::Var(x) => *x == v,
        Nnrc::Const(_) | Nnrc::Global(_) => false,
        Nnrc::Unary(_, a) => free_in(v, a.get()),
        Nnrc::Binary(_, a, b) => free_in(v, a.get()) || free_in(v, b.get()),
        Nnrc::Let(x, a, b) | Nnrc::For(x, a, b) => {
            free_in(v, a.get()) || *x != v && free_in(v, b.get())
        }
        Nnrc::If(a, b, c) => free_in(v, a.get()) || free_in(v, b.get()) || free_in(v, c.get()),
        Nnrc::Either(a, x, b, y, c) => {
            free_in(v, a.get()) || *x != v && free_in(v, b.get()) || *y != v && free_in(v, c.get())
        }
    }
}
