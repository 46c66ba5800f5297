//! Lines of the output.
use std::alloc::AllocError;
use std::fmt::{Debug, Write};

/// Adds each of some items on a line of its own.
pub fn add_lines<T: Debug>(text: &mut String, items: &[T]) -> Result<(), AllocError> {
    for item in items {
        write!(text, "{item:?}\n")?;
    }
    Ok(())
}
