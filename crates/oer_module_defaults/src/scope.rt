//! What goes along while values are written.
use oer_module_names::Names;
use std::alloc::Global;

/// The modules, and where memory comes from.
#[derive(Clone, Copy)]
pub struct Scope<'n, 'm, 's, 't> {
    pub alloc: Global,
    pub names: &'n Names<'m, 's, 't>,
}
