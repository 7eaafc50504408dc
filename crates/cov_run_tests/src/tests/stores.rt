// Bytes of stores, as another program makes them.
use crate::tests::running::Stored;

/// The store of the two commits of the plain script.
pub(crate) const PLAIN: [u8; 150] = [
    67, 79, 86, 83, 84, 79, 82, 69, 0, 0, 0, 1, 1, 0, 0, 0, 36, 5, 0, 0, 0, 0, 0, 1, 0, 0, 0, 2, 1,
    0, 0, 0, 0, 0, 0, 1, 109, 2, 1, 0, 0, 0, 0, 0, 0, 0, 0, 0, 0, 3, 111, 110, 101, 159, 240, 156,
    251, 196, 44, 248, 11, 8, 134, 38, 120, 189, 221, 177, 150, 210, 216, 174, 227, 243, 88, 75,
    248, 179, 126, 8, 103, 136, 60, 30, 89, 1, 0, 0, 0, 27, 5, 0, 0, 0, 1, 0, 1, 0, 0, 0, 1, 2, 0,
    0, 0, 0, 1, 0, 0, 0, 0, 1, 0, 3, 116, 119, 111, 248, 175, 44, 153, 181, 210, 198, 19, 25, 151,
    215, 26, 39, 58, 55, 171, 140, 223, 105, 170, 72, 12, 202, 55, 132, 156, 118, 57, 159, 64, 211,
    233, 0,
];

/// The store of `option a` alone.
pub(crate) const OPTION: [u8; 53] = [
    67, 79, 86, 83, 84, 79, 82, 69, 0, 0, 0, 1, 1, 0, 0, 0, 3, 1, 1, 97, 147, 247, 53, 91, 227,
    241, 213, 211, 196, 216, 235, 143, 164, 23, 174, 210, 3, 103, 5, 49, 151, 206, 175, 224, 125,
    41, 13, 220, 179, 241, 251, 221, 0,
];

pub(crate) const EMPTY: Stored = Stored {
    whole: &PLAIN,
    count: 0,
    behind: b"",
};

/// The store without a record.
pub(crate) const NEW: Stored = Stored {
    whole: &PLAIN,
    count: 12,
    behind: b"\0",
};

/// The store of the first commit of the plain script.
pub(crate) const FIRST: Stored = Stored {
    whole: &PLAIN,
    count: 85,
    behind: b"\0",
};

/// The store of both.
pub(crate) const BOTH: Stored = Stored {
    whole: &PLAIN,
    count: 150,
    behind: b"",
};
