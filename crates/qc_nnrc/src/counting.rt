// The size of trees.
ghost use Rattle.std.specs.Prelude.{◌≡◌, ◌≤◌, ◌^◌};
ghost use Rattle.qc_nnrc.specs.Sizes.{size};

use crate::tree::Nnrc;

/// How many nodes the tree has, of which there are at most 2^100.
pub fn nodes(e: &Nnrc) -> u128
    requires small { size e.now ≤ 2 ^ 100 }
    ensures { result ≡ size e.now }
{
    match e {
        Nnrc::Var(_) | Nnrc::Const(_) | Nnrc::Global(_) => 1,
        Nnrc::Unary(_, a) => 1 + nodes(a.get()),
        Nnrc::Binary(_, a, b) | Nnrc::Let(_, a, b) | Nnrc::For(_, a, b) => {
            1 + nodes(a.get()) + nodes(b.get())
        }
        Nnrc::If(a, b, c) | Nnrc::Either(a, _, b, _, c) => {
            1 + nodes(a.get()) + nodes(b.get()) + nodes(c.get())
        }
    }
}
