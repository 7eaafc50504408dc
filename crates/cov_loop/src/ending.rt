// How the serving of lines ends.

/// What ends a line early, or the serving of a script.
#[derive(Clone, Copy, Debug, PartialEq, Eq)]
pub enum Ending {
    /// The script was read to its end, and no line was refused.
    Done,
    /// The script was read to its end, and at least one line was refused.
    SomeRefused,
    /// No memory was to be had.
    NoMemory,
    /// A read of the script failed.
    ReadFault,
    /// A write of a reply failed.
    WriteFault,
    /// A call of the disk failed.
    DiskFault,
    /// A row of a tree could not be written.
    TreesFault,
    /// The source gave at least 2^32 bytes, and its end wasn't reached.
    TooMuch,
}
