/// Why a read was refused.
#[derive(Clone, Copy, Debug, PartialEq, Eq)]
pub enum LoadFault {
    /// The read failed, and its name's count of faults rose. A missing file is such a failure.
    Failed,
    /// The read succeeded, and the file is longer than the cap.
    Long,
    /// For want of memory.
    Memory,
}

/// Why a write was refused.
#[derive(Clone, Copy, Debug, PartialEq, Eq)]
pub enum PutFault {
    /// The write failed, and the count of faults rose. A front of the bytes may be written.
    Failed,
    /// For want of memory. Nothing is written.
    Memory,
}
