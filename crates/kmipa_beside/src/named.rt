//! An object that is someone's.

/// The identifier of a declared object, and the client whose it is.
#[derive(Drop)]
pub struct Named {
    pub id: String,
    pub client: String,
}
