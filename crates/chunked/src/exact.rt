//! Values whose clones are equal to them.

ghost use Rattle.std.specs.Prelude.{◌≡◌};
ghost use Rattle.chunked.specs.kept.Exact.{option_exact};

/// What has clones that contracts cannot tell from it.
pub trait ExactClone: Clone {
    ghost exact: { (old new : Self) → Self.is_clone old new → new ≡ old };
}

impl ExactClone for u64 {
    ghost exact = { λ _ _ same. same };
}

impl ExactClone for u32 {
    ghost exact = { λ _ _ same. same };
}

impl<T: ExactClone> ExactClone for Option<T> {
    ghost exact = { option_exact _ T.exact (λ _ r. r) (λ _ r. r) };
}

impl<A: ExactClone, B: ExactClone> ExactClone for (A, B) {
    ghost exact = { λ old new same i. (A.exact old.0 new.0 same.0 i, B.exact old.1 new.1 same.1 i) };
}
