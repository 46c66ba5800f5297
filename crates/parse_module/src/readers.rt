//! The readers of modules and items of structures.

use module_parts::Modules;

/// The readers of modules, module types and items of structures, over the context of the readers of their parts.
#[derive(Clone, Copy)]
pub(crate) struct Readers<F, G> {
    pub(crate) parts: Modules<F, G>,
}
