//! What was read of a declaration.

use kmipa_record::Settings;
use kmipa_stream::Opening;

/// The settings of a declaration, and the ledger and the lines that it opens.
#[derive(Drop)]
pub struct Declared {
    pub settings: Settings,
    pub opening: Opening,
}
