//! The law of the order in which lanes are looked at, as a contract of a function that does nothing.
ghost use Rattle.mailbox.specs.Laws.{ScanLaw};

/// A scan looks at the lane from each other instance of the board once, and at no other lane.
pub fn scan_law()
    ensures { ScanLaw }
{}
