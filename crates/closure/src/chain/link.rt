//! Direct steps of the enforced order.
ghost use Rattle.std.specs.Prelude.{◌≡◌};
ghost use Rattle.closure.specs.Chain.Rules.{rule_text};

use chart::EventNo;

/// The rule by which an event comes directly before another.
#[derive(Clone, Copy, Debug, PartialEq, Eq)]
pub enum Rule {
    /// The earlier event is the send of a message, the later one its receive.
    Message,
    /// The earlier event is any event of a line, the later one a send of this line.
    BeforeSend,
    /// Both are receives of a line from the same sender.
    SameSender,
}

/// A rule's name.
#[tactic(auto, unfolding(crate::specs::Chain::Rules::rule_text))]
pub fn rule_of(rule: &Rule) -> &[u8]
    ensures { result.now ≡ rule_text rule.now }
{
    match rule {
        Rule::Message => b"message",
        Rule::BeforeSend => b"earlier event of a line, before a send",
        Rule::SameSender => b"same sender",
    }
}

/// Two events, one directly before the other.
#[derive(Clone, Copy, Debug, PartialEq, Eq)]
pub struct Link {
    pub earlier: EventNo,
    pub later: EventNo,
    pub rule: Rule,
}
