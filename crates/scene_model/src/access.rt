//! What a system declares.

/// The names of the parts and globals that a system reads and writes, all the rules' own.
///
/// Every system reads entities and markers; one that would write them is refused with its document.
#[derive(Debug, Drop)]
pub struct SystemAccess {
    /// The kinds of parts that are read.
    pub reads: Vec<&'static str>,
    /// The kinds of parts that are written, and may be read.
    pub writes: Vec<&'static str>,
    /// The globals that are read.
    pub read_globals: Vec<&'static str>,
    /// The globals that are written, and may be read.
    pub written_globals: Vec<&'static str>,
    /// Whether entities or markers would be written.
    pub writes_reserved: bool,
}
