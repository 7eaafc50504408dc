//! Laws of what is taken. Each function does nothing; what it ensures is the law.
ghost use Rattle.cov_replica.specs.Laws.{OneReading, ImageIsTaken, DamageIsTaken, NoStoreIsTaken, FaultStays, HistoryStays, RefusalIsOfVerdict, AnyPieces, NeverWant};

/// A payload is read as the command whose record it is, and as no other.
pub fn one_reading()
    ensures { OneReading }
{}

/// Of an image that stands for a history the history is taken, and of its first bytes the first commands.
pub fn image_is_taken()
    ensures { ImageIsTaken }
{}

/// Damage for which a disk isn't opened is the fault that is taken of its bytes, unless they end before the record's next gate.
pub fn damage_is_taken()
    ensures { DamageIsTaken }
{}

/// Of bytes that are no store nothing is taken, and that is their fault.
pub fn no_store_is_taken()
    ensures { NoStoreIsTaken }
{}

/// A fault stays, and the history with it, whatever comes behind.
pub fn fault_stays()
    ensures { FaultStays }
{}

/// A history goes on with what comes behind, and loses nothing.
pub fn history_stays()
    ensures { HistoryStays }
{}

/// A refusal that is the fault of bytes is that of a command by the history before it.
pub fn refusal_is_of_verdict()
    ensures { RefusalIsOfVerdict }
{}

/// What is taken of bytes that are fed piece by piece is what is taken of them at once.
pub fn any_pieces()
    ensures { AnyPieces }
{}

/// Want of memory is never the fault of bytes.
pub fn never_want()
    ensures { NeverWant }
{}
