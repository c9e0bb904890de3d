// The size of trees.
ghost use Rattle.std.specs.Prelude.{◌≡◌, ◌≤◌, ◌^◌};
ghost use Rattle.qc_nra.specs.Sizes.{size};

use crate::tree::Nra;

/// How many nodes the tree has, of which there are at most 2^100.
pub fn nodes(q: &Nra) -> u128
    requires small { size q.now ≤ 2 ^ 100 }
    ensures { result ≡ size q.now }
{
    match q {
        Nra::Const(_) | Nra::Input | Nra::Env | Nra::Global(_) => 1,
        Nra::Unary(_, a) | Nra::MapEnv(a) => 1 + nodes(a.get()),
        Nra::Binary(_, a, b)
        | Nra::Comp(a, b)
        | Nra::Map(a, b)
        | Nra::Select(a, b)
        | Nra::Product(a, b)
        | Nra::DepJoin(a, b)
        | Nra::Default(a, b)
        | Nra::EnvComp(a, b)
        | Nra::Either(a, b) => 1 + nodes(a.get()) + nodes(b.get()),
        Nra::If(a, b, c) => 1 + nodes(a.get()) + nodes(b.get()) + nodes(c.get()),
    }
}
