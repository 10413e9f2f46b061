//! A record as the key of its name.

ghost use Rattle.std.specs.Prelude.{◌≡◌, IfOk};
ghost use Rattle.std.proofs.Common.{ap};
ghost use Rattle.std.specs.Cmp.{on_equiv, on_per, partial_equiv_from_equiv};
ghost use Rattle.std.specs.Cmp.Lexicographic.{bytes_decides, nat_list_eq_equiv};
ghost use Rattle.catalog.specs.Catalog.{same_name};
ghost use Rattle.catalog.specs.kept.Spellings.{input_of};

use crate::named::Named;
use crate::spelling::Spelling;
use chunked::Shared;
use indexmap::Equivalent;
use std::alloc::AllocError;
use std::hash::{Hash, Hasher};

/// A record, shared, that is hashed and compared by its name alone: so a map finds it by the text and keeps no copy of
/// that.
#[derive(Drop)]
pub(crate) struct ByName<R: Named> {
    pub(crate) record: Shared<R>,
}

impl<R: Named> ByName<R> {
    /// The name.
    fn name(&self) -> &str
        ensures { result.now ≡ R.name self.now.record }
    {
        self.record.value().name()
    }
}

impl<R: Named> Clone for ByName<R> {
    ghost is_clone = { λ old new. new ≡ old };

    fn clone(&self) -> Result<ByName<R>, AllocError> {
        let record = self.record.clone()?;
        Ok(ByName { record })
    }
}

impl<R: Named> PartialEq for ByName<R> {
    ghost eq = { λ a b. same_name (R.name a.record) (R.name b.record) };

    ghost laws = { on_per (λ a. R.name a.record) (partial_equiv_from_equiv nat_list_eq_equiv) };

    fn eq(&self, other: &Self) -> bool {
        self.name() == other.name()
    }
}

impl<R: Named> Eq for ByName<R> {
    ghost laws = { on_equiv (λ a. R.name a.record) nat_list_eq_equiv };
}

impl<R: Named> Hash for ByName<R> {
    ghost hash_input = { λ a. input_of (R.name a.record) };

    ghost respects_eq = { λ a b h. ap input_of ((bytes_decides (R.name a.record) (R.name b.record)).0 h) };

    fn hash<H: Hasher>(&self, state: &mut H) {
        let bytes = self.name().as_bytes();
        Spelling { bytes }.hash(state);
    }
}

impl<'a, R: Named> Equivalent<ByName<R>> for Spelling<'a> {
    ghost equivalent = { λ q k. same_name q.bytes.now (R.name k.record) };

    ghost respects_hash = { λ q k h. ap input_of ((bytes_decides q.bytes.now (R.name k.record)).0 h) };

    ghost respects_eq = { λ q x y. nat_list_eq_equiv.congr q.bytes.now (R.name x.record) (R.name y.record) };

    fn equivalent(&self, key: &ByName<R>) -> bool {
        self.bytes == key.name().as_bytes()
    }
}
