//! The three files of an audit: a transcript of calls, a declaration of what the server held, and a witness.
//!
//! Each is a header item and then records, each an outermost TTLV item. `read_transcript`, `read_declaration` and
//! `read_witness` read one from an `Input`; `write_transcript`, `write_declaration` and `write_witness` write one. A
//! `RecordFault` says what is wrong with a file, and where. `read_declaration_into` keeps nothing of a declaration: it hands
//! its records over to whatever `TakesRecords`.
#![tactic(auto)]

mod admitting;
mod allow_line;
mod append;
mod aside;
mod birth;
mod call;
mod calls;
mod declaration;
mod declaration_header;
mod declaration_record;
mod declaration_testing;
mod declaration_version;
mod declaration_writing;
mod entry;
mod fault;
mod fill;
mod hashes;
mod head;
mod header;
mod label;
mod laws;
mod mark_reading;
mod marks;
mod number_map;
mod own_attribute;
mod own_line;
mod placed;
mod reach;
mod record;
mod recorded_marks;
mod records;
mod row;
mod sealed_reading;
mod sealed_record;
mod settings;
mod shape;
mod tags;
mod taking;
mod torn;
mod transcript;
mod transcript_writing;
mod turn;
mod version;
mod witness;
mod witness_writing;

pub use allow_line::is_new_cell;
pub use birth::Birth;
pub use call::Call;
pub use declaration::{
    Declaration, read_declaration, read_declaration_into, read_declaration_within,
};
pub use declaration_record::DeclarationRecord;
pub use declaration_writing::{is_too_long, write_declaration, write_declaration_within};
pub use entry::Entry;
pub use fault::{RecordFault, RecordKind};
pub use fill::Fill;
pub use head::Head;
pub use label::Label;
pub use laws::{
    no_fault_of_declaration, no_fault_of_transcript, no_fault_of_witness, one_declaration,
    one_declaration_fault, one_transcript, one_transcript_fault, one_witness, one_witness_fault,
    sealed_ahead_of_close,
};
pub use marks::Marks;
pub use number_map::NumberMap;
pub use own_attribute::OwnAttribute;
pub use own_line::is_new_attribute;
pub use reach::Reach;
pub use recorded_marks::RecordedMarks;
pub use settings::Settings;
pub use taking::TakesRecords;
pub use torn::{Torn, complete};
pub use transcript::{Begin, End, Mark, Transcript, read_transcript};
pub use transcript_writing::write_transcript;
pub use turn::Turn;
pub use witness::{Witness, read_witness};
pub use witness_writing::write_witness;
