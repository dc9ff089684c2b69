//! Laws of every run of the two ends of a lane, in any order of their steps, as contracts of functions that do nothing.
//! Each function is called at the type of the messages, which may be any type.
ghost use Rattle.lane_core.specs.Alone.{ReceiverAlone, SenderAlone};
ghost use Rattle.lane_core.specs.IndexWords.{index_words};
ghost use Rattle.lane_core.specs.Laws.{FreedInOrder, AtMostCapacity, NoSlotOfBoth, FillsOwnSlot, TakesOwnMessage};
ghost use Rattle.lane_core.specs.Laws.{PutsBackOwnMessage, NothingAfterClose, FullExactly, MessageExactly};
ghost use Rattle.lane_core.specs.Laws.{EndedExactly};
ghost use Rattle.lane_core.specs.FlagWords.{flag_words};

/// Laws of every run, with messages of this type, in either form and of any capacity. The freed messages are the first
/// of the published ones, in order, and no more messages wait than the lane has slots. No slot is claimed by both ends,
/// and each end touches only slots that it claims. While the lane is open, only an empty slot is filled. A take finds a
/// message. The message that was taken last is put back into the slot that it came from, which is empty, and is taken
/// next. After the close nothing is published. A load finds the lane full exactly if as many messages wait as there are
/// slots, and a message exactly if one waits. It finds the end exactly if none waits and the lane is closed.
pub fn every_run<Message>()
    ensures index_in_order { FreedInOrder (index_words Message) }
    ensures index_bounded { AtMostCapacity (index_words Message) }
    ensures index_apart { NoSlotOfBoth (index_words Message) }
    ensures index_fills { FillsOwnSlot (index_words Message) }
    ensures index_takes { TakesOwnMessage (index_words Message) }
    ensures index_puts_back { PutsBackOwnMessage (index_words Message) }
    ensures index_closed { NothingAfterClose (index_words Message) }
    ensures index_full { FullExactly (index_words Message) }
    ensures index_message { MessageExactly (index_words Message) }
    ensures index_ended { EndedExactly (index_words Message) }
    ensures slot_in_order { FreedInOrder (flag_words Message) }
    ensures slot_bounded { AtMostCapacity (flag_words Message) }
    ensures slot_apart { NoSlotOfBoth (flag_words Message) }
    ensures slot_fills { FillsOwnSlot (flag_words Message) }
    ensures slot_takes { TakesOwnMessage (flag_words Message) }
    ensures slot_puts_back { PutsBackOwnMessage (flag_words Message) }
    ensures slot_closed { NothingAfterClose (flag_words Message) }
    ensures slot_full { FullExactly (flag_words Message) }
    ensures slot_message { MessageExactly (flag_words Message) }
    ensures slot_ended { EndedExactly (flag_words Message) }
{}

/// Laws of every run, with messages of this type, in either form and of any capacity, after which only one end makes
/// steps. This end is between two calls at first, and continues alone. A receiver frees exactly the waiting messages,
/// one at each call. Then every call finds nothing if the lane is open, and the end if it is closed. A sender on an
/// open lane publishes as many messages as there are free slots, and then always finds the lane full. A call may use
/// what was loaded earlier, if its end claims a slot by this. Every other call makes a load.
pub fn every_stop<Message>()
    ensures index_receiver { ReceiverAlone (index_words Message) }
    ensures index_sender { SenderAlone (index_words Message) }
    ensures slot_receiver { ReceiverAlone (flag_words Message) }
    ensures slot_sender { SenderAlone (flag_words Message) }
{}
