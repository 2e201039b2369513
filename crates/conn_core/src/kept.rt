ghost use Rattle.std.specs.Prelude.{◌≡◌, IfOk};

use share_model::NoMemory;
use std::alloc::Global;
use std::marker::Model;

/// A value of some hundred bytes that stands apart, so that what has it moves a pointer. A contract sees the value.
#[derive(Drop)]
pub struct Kept<T> {
    value: Box<T>,
}

impl<T> Model for Kept<T> {
    ghost Value = { T };

    ghost coded = { T.code };

    ghost view = { λ k. k.value.value };
}

impl<T> Kept<T> {
    /// The value, lent.
    pub fn get(&self) -> &T
        ensures { result.now ≡ self.now }
    {
        &self.value
    }

    /// The value.
    pub fn into_inner(self) -> T
        ensures { result ≡ self }
    {
        let Kept { value } = self;
        Box::into_inner(value)
    }
}

impl<T: Drop> Kept<T> {
    /// The value, apart.
    pub fn new(alloc: Global, value: T) -> Result<Kept<T>, NoMemory>
        ensures { IfOk result (λ kept. kept ≡ value) }
    {
        let value = Box::new(alloc, value)?;
        Ok(Kept { value })
    }
}
