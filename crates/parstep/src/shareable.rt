//! That threads may share a handle, for contracts alone.

ghost use Rattle.std.specs.Thread.{IsSync};

use std::marker::{Model, PhantomData, Send};

/// The fact that threads may share an `R`. It takes no bytes. A method of an `impl` of a trait knows of `R` only what the
/// trait knows, so a stepper that lends its handle to threads keeps the fact beside it.
#[derive(Drop)]
pub struct Shareable<R> {
    of: PhantomData<R>,
}

impl<R> Model for Shareable<R> {
    ghost use base.Fml.{fex, ftrue};
    ghost use Rattle.parstep.specs.kept.Shares.{Shares};

    ghost also_owns = { λ _. fex (Shares R.row) (λ _. ftrue) };
}

// It owns nothing but a fact.
unsafe impl<R> Send for Shareable<R> {}

impl<R> Shareable<R> {
    /// The fact, where it holds.
    pub fn new() -> Shareable<R>
        requires { IsSync R.row }
    {
        Shareable { of: PhantomData }
    }

    /// Says what it keeps. Nothing runs.
    pub fn says(&mut self)
        ensures { IsSync R.row }
    {}
}
