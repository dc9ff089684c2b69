//! What one message more does to a chart, each a law that a function with no body proves.
ghost use Rattle.repair.specs.Laws.{KeptLaw, OrderLaw, NoNewRaceLaw, InformingLaw, NoMessageLaw};
ghost use Rattle.repair.specs.Laws.{NotStoppedLaw, FarLimitLaw, StoppedLaw};

/// Where the new message's receive is of its send, no receive loses its send, all that was enforced still is, and no
/// two old events become a race.
pub fn message_law()
    ensures kept { KeptLaw }
    ensures order { OrderLaw }
    ensures races { NoNewRaceLaw }
{}

/// A race goes where a message can inform of its earlier event, and else no message of its line to that of the
/// receive's sender makes it go.
pub fn informing_law()
    ensures informing { InformingLaw }
    ensures none { NoMessageLaw }
{}

/// A limit of the pairs that are tried changes nothing that it doesn't stop: what was added within it is what is added
/// with none, and where none is needed so many tries are enough. It stops only where more pairs are left than it has
/// tries left.
pub fn limit_law()
    ensures same { NotStoppedLaw }
    ensures far { FarLimitLaw }
    ensures stopped { StoppedLaw }
{}
