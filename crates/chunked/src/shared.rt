//! A value that copies share.

ghost use Rattle.std.specs.Prelude.{◌≡◌, IfOk};

use crate::exact::ExactClone;
use std::alloc::{AllocError, Global};
use std::marker::Model;
use std::sync::Arc;

/// A value behind a pointer that clones share. Contracts see the value.
#[derive(Debug, Drop)]
pub struct Shared<T: Drop> {
    pointer: Arc<T>,
}

impl<T: Drop> Model for Shared<T> {
    ghost use Rattle.std.specs.Arc.{arc_value};

    ghost Value = { T };

    ghost view = { λ a. arc_value a.pointer };
}

impl<T: Drop> Shared<T> {
    /// The value, to be shared. It fails where memory runs out.
    pub fn new(alloc: Global, value: T) -> Result<Shared<T>, AllocError>
        ensures { IfOk result (λ shared. shared ≡ value) }
    {
        let pointer = Arc::new(alloc, value)?;
        Ok(Shared { pointer })
    }

    /// The value.
    pub fn value(&self) -> &T
        ensures { result.now ≡ self.now }
    {
        &self.pointer
    }
}

impl<T: Drop> Clone for Shared<T> {
    ghost is_clone = { λ old new. new ≡ old };

    fn clone(&self) -> Result<Shared<T>, AllocError> {
        let pointer = Arc::try_clone(&self.pointer)?;
        Ok(Shared { pointer })
    }
}

impl<T: Drop> ExactClone for Shared<T> {
    ghost exact = { λ _ _ same. same };
}
