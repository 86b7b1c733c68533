//! A list of what happened that only clauses read. At run time it takes neither memory nor time.
ghost use Rattle.std.specs.Prelude.{◌≡◌, List, [], ◌∷◌, ◌++◌};
ghost use Rattle.std.specs.Borrow.{ftrue};

use std::marker::{Model, PhantomData};

/// What happened, as a list that clauses read as `items`.
#[derive(Drop)]
pub struct Trace<T> {
    of: PhantomData<T>,
    pub ghost items: { List T },
}

impl<T> Model for Trace<T> {
    ghost also_owns = { λ _. ftrue };
}

impl<T> Trace<T> {
    ghost use Rattle.common.specs.Traces.{trace_of};

    // Any list: the caller's proof chooses it, from what it hands over.
    fn chosen<A>(_from: &A) -> Trace<T>
        ghost items: { List T }
        ensures { result ≡ trace_of items }
    {
        Trace { of: PhantomData }
    }

    /// Nothing.
    pub fn new() -> Trace<T>
        ensures { result ≡ trace_of [] }
    {
        Trace::chosen(&())
    }

    /// This and then `item`, the latest first.
    pub fn and(&self, item: &T) -> Trace<T>
        ensures { result ≡ trace_of (item.now ∷ self.now.items) }
    {
        Trace::chosen(&(self, item))
    }

    /// This and then `items`, in their order.
    pub fn then(&self, items: &[T]) -> Trace<T>
        ensures { result ≡ trace_of (self.now.items ++ items.now) }
    {
        Trace::chosen(&(self, items))
    }
}
