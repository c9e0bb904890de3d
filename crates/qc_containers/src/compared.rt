// Equality and order of texts, names, lists and pairs, which are those of what they hold.
ghost use Rattle.std.specs.Prelude.{◌≡◌, Some, ◌&&◌};
ghost use mathlib.Core.Path.{refl};
ghost use Rattle.std.specs.Cmp.Lexicographic.{pointwise, slice_cmp, slice_partial_cmp, lists_equiv, lists_agrees};
ghost use Rattle.std.specs.Cmp.Lexicographic.{lists_total, lists_ties, nat_list_eq_equiv, nat_list_cmp_total};
ghost use Rattle.std.specs.Cmp.Lexicographic.{texts_ties, lists_po, texts_po, lists_per};
ghost use Rattle.std.specs.Cmp.{on_equiv, on_total, on_po, on_per, and_per, and_equiv, then_po, then_total};
ghost use Rattle.std.specs.Cmp.{then_agrees, both_tied, partial_equiv_from_equiv};
ghost use Rattle.std.specs.Ordering.{nat_cmp, ordering_then, partial_ordering_then};
ghost use Rattle.std.specs.Str.{bytes_eq};

use crate::boxed::Boxed;
use crate::name::Name;
use crate::name_map::NameMap;
use crate::shared_list::SharedList;
use crate::text::Chars;
use std::cmp::Ordering;

impl PartialEq for Chars {
    ghost eq = { bytes_eq };

    ghost laws = { partial_equiv_from_equiv nat_list_eq_equiv };

    fn eq(&self, other: &Self) -> bool {
        self.as_str() == other.as_str()
    }
}

impl Eq for Chars {
    ghost laws = { nat_list_eq_equiv };
}

impl PartialOrd for Chars {
    ghost partial_cmp = { λ x y. Some (slice_cmp nat_cmp x y) };

    ghost laws = { texts_po };

    fn partial_cmp(&self, other: &Self) -> Option<Ordering> {
        Some(self.as_str().cmp(other.as_str()))
    }
}

impl Ord for Chars {
    ghost cmp = { slice_cmp nat_cmp };

    ghost total = { nat_list_cmp_total };

    ghost matches_partial_cmp = { λ x y. refl };

    ghost matches_eq = { texts_ties };

    fn cmp(&self, other: &Self) -> Ordering {
        self.as_str().cmp(other.as_str())
    }
}

impl<T: PartialEq> PartialEq for SharedList<T> {
    ghost eq = { λ x y. pointwise T.eq x y };

    ghost laws = { lists_per T.laws };

    fn eq(&self, other: &Self) -> bool {
        self.as_slice() == other.as_slice()
    }
}

impl<T: Eq> Eq for SharedList<T> {
    ghost laws = { lists_equiv T.Eq.laws };
}

impl<T: PartialOrd> PartialOrd for SharedList<T> {
    ghost partial_cmp = { λ x y. slice_partial_cmp T.partial_cmp x y };

    ghost laws = { lists_po T.PartialOrd.laws };

    fn partial_cmp(&self, other: &Self) -> Option<Ordering> {
        self.as_slice().partial_cmp(other.as_slice())
    }
}

impl<T: Ord> Ord for SharedList<T> {
    ghost cmp = { λ x y. slice_cmp T.cmp x y };

    ghost total = { lists_total T.total };

    ghost matches_partial_cmp = { lists_agrees T.matches_partial_cmp };

    ghost matches_eq = { lists_ties T.cmp T.matches_eq };

    fn cmp(&self, other: &Self) -> Ordering {
        self.as_slice().cmp(other.as_slice())
    }
}

impl<T: PartialEq> PartialEq for Boxed<T> {
    ghost eq = { λ x y. T.eq x y };

    ghost laws = { T.laws };

    fn eq(&self, other: &Self) -> bool {
        *self.get() == *other.get()
    }
}

impl<T: Eq> Eq for Boxed<T> {
    ghost laws = { T.Eq.laws };
}

impl<T: PartialOrd> PartialOrd for Boxed<T> {
    ghost partial_cmp = { λ x y. T.partial_cmp x y };

    ghost laws = { T.PartialOrd.laws };

    fn partial_cmp(&self, other: &Self) -> Option<Ordering> {
        self.get().partial_cmp(other.get())
    }
}

impl<T: Ord> Ord for Boxed<T> {
    ghost cmp = { λ x y. T.cmp x y };

    ghost total = { T.total };

    ghost matches_partial_cmp = { T.matches_partial_cmp };

    ghost matches_eq = { T.matches_eq };

    fn cmp(&self, other: &Self) -> Ordering {
        self.get().cmp(other.get())
    }
}

impl PartialEq for Name {
    ghost eq = { bytes_eq };

    ghost laws = { partial_equiv_from_equiv nat_list_eq_equiv };

    fn eq(&self, other: &Self) -> bool {
        self.as_str() == other.as_str()
    }
}

impl Eq for Name {
    ghost laws = { nat_list_eq_equiv };
}

impl PartialOrd for Name {
    ghost partial_cmp = { λ x y. Some (slice_cmp nat_cmp x y) };

    ghost laws = { texts_po };

    fn partial_cmp(&self, other: &Self) -> Option<Ordering> {
        Some(self.as_str().cmp(other.as_str()))
    }
}

impl Ord for Name {
    ghost cmp = { slice_cmp nat_cmp };

    ghost total = { nat_list_cmp_total };

    ghost matches_partial_cmp = { λ x y. refl };

    ghost matches_eq = { texts_ties };

    fn cmp(&self, other: &Self) -> Ordering {
        self.as_str().cmp(other.as_str())
    }
}

impl<T: PartialEq> PartialEq for NameMap<T> {
    ghost eq = { λ x y. pointwise (λ p q. bytes_eq p.0 q.0 && T.eq p.1 q.1) x y };

    ghost laws = { lists_per
        (and_per (on_per (λ p. p.0) (partial_equiv_from_equiv nat_list_eq_equiv)) (on_per (λ p. p.1) T.laws)) };

    fn eq(&self, other: &Self) -> bool {
        self.as_slice() == other.as_slice()
    }
}

impl<T: Eq> Eq for NameMap<T> {
    ghost laws = { lists_equiv (and_equiv (on_equiv (λ p. p.0) nat_list_eq_equiv) (on_equiv (λ p. p.1) T.Eq.laws)) };
}

impl<T: PartialOrd> PartialOrd for NameMap<T> {
    ghost partial_cmp = { λ x y. slice_partial_cmp
        (λ p q. partial_ordering_then (Some (slice_cmp nat_cmp p.0 q.0)) (T.partial_cmp p.1 q.1)) x y };

    ghost laws = { lists_po (then_po (on_po (λ p. p.0) texts_po) (on_po (λ p. p.1) T.PartialOrd.laws)) };

    fn partial_cmp(&self, other: &Self) -> Option<Ordering> {
        self.as_slice().partial_cmp(other.as_slice())
    }
}

impl<T: Ord> Ord for NameMap<T> {
    ghost cmp = { λ x y. slice_cmp (λ p q. ordering_then (slice_cmp nat_cmp p.0 q.0) (T.cmp p.1 q.1)) x y };

    ghost total = { lists_total (then_total (on_total (λ p. p.0) nat_list_cmp_total) (on_total (λ p. p.1) T.total)) };

    ghost matches_partial_cmp = { lists_agrees (then_agrees (λ p q. refl) (λ p q. T.matches_partial_cmp p.1 q.1)) };

    ghost matches_eq = { let T' = T.cmp in
        lists_ties (λ p q. ordering_then (slice_cmp nat_cmp p.0 q.0) (T' p.1 q.1))
        (λ p q. both_tied _ _ (slice_cmp nat_cmp p.0 q.0) (T' p.1 q.1) (texts_ties p.0 q.0) (T.matches_eq p.1 q.1)) };

    fn cmp(&self, other: &Self) -> Ordering {
        self.as_slice().cmp(other.as_slice())
    }
}
