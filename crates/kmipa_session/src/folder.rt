//! The folder of a chain: its segments, in the order of their names.

/// A folder of segments.
#[derive(Drop)]
pub struct Folder {
    /// The path of the declaration that they begin with.
    pub declaration: String,
    pub segments: Vec<FolderSegment>,
    /// What the server was asked for behind the last segment.
    pub asked: Vec<AskedFor>,
}

/// A declaration that the server was asked for.
#[derive(Drop)]
pub struct AskedFor {
    /// Its name.
    pub name: String,
    /// Its path.
    pub path: String,
}

/// The files of a segment.
#[derive(Drop)]
pub struct FolderSegment {
    /// The name of the transcript.
    pub name: String,
    /// Its path.
    pub transcript: String,
    /// The path of the witness, where there is one.
    pub witness: Option<String>,
    /// What the server was asked for ahead of it, and behind the segment before it.
    pub asked: Vec<AskedFor>,
    /// The path of the file that its witness is written to, where that is asked for.
    pub kept: Option<String>,
}
