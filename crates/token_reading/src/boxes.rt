//! Boxes and lists for what is read.

ghost use Rattle.std.specs.Prelude.{◌≡◌, Some};
ghost use Rattle.token_reading.specs.Gives.{Gives};

use crate::error::ReadError;
use std::alloc::Global;

/// The value in a box. `Memory` is the only error.
pub fn boxed<T: Drop>(alloc: Global, value: T) -> Result<Box<T>, ReadError>
    ensures { Gives (λ x. x.value) result (Some value) }
{
    Ok(Box::new(alloc, value)?)
}

/// The list, without room for more elements.
pub fn fit<T: Drop>(list: Vec<T>) -> Vec<T>
    ensures { result.items ≡ list.items }
{
    let mut list = list;
    list.shrink_to_fit();
    list
}
