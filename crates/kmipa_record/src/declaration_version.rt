//! Versions of a declaration.

/// The version of a declaration.
#[derive(Clone, Copy)]
pub enum DeclarationVersion {
    /// Rows and entries.
    First,
    /// Besides, settings, allow lines, own lines, owners, and identifiers that are set aside.
    Second,
}
