// A value with several owners.
ghost use Rattle.std.specs.Prelude.{◌≡◌, IfOk, IfSome};

use crate::Memory;
use std::alloc::Global;
use std::marker::Model;
use std::rc::Rc;

/// A value with several owners, none of which changes it. It is given back with the last of them.
#[derive(Debug)]
pub struct Shared<T> {
    value: Rc<T>,
}

impl<T> Model for Shared<T> {
    ghost Value = { T };

    ghost view = { λ s. s.value.value };
}

// It is dropped by a call, so that whoever drops one needn't know what it shares.
impl<T: Drop> Drop for Shared<T> {
    fn drop(self) {
        let Shared { value } = self;
        drop(value);
    }
}

impl<T: Drop> Shared<T> {
    pub fn new(alloc: Global, value: T) -> Result<Shared<T>, Memory>
        ensures { IfOk result (λ shared. shared ≡ value) }
    {
        Ok(Shared {
            value: Rc::new(alloc, value)?,
        })
    }

    /// One more owner. It takes no memory, and time that doesn't depend on the value; `Memory` comes only where the owners
    /// can't be counted.
    pub fn share(&self) -> Result<Shared<T>, Memory>
        ensures { IfOk result (λ shared. shared ≡ self.now) }
    {
        Ok(Shared {
            value: self.value.clone()?,
        })
    }

    /// The value, where it has no other owner. Else it is None, and the others have it.
    pub fn into_own(self) -> Option<T>
        ensures { IfSome result (λ own. own ≡ self) }
    {
        let Shared { value } = self;
        Rc::into_inner(value)
    }

    /// The value, which isn't changed while it has an owner.
    pub fn lend(&self) -> &T
        ensures { result.now ≡ self.now }
    {
        self.value.as_ref()
    }
}
