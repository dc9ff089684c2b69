//! The laws of charts. Each is the contract of a function that does nothing. For names: no reserved word of the chart
//! text is one. For any chart: what is before a receive on its own line, what a send knows of each line, and what a
//! receive hears. For the charts of legal histories: each receive has its send, and no event is before itself. Further,
//! what one more event adds, what later events leave as it is, and what exists exactly once.
ghost use Rattle.chart.specs.Laws.{KeywordLaw, ReportLaw, RacesLaw, OwnKnowledgeLaw, KnowledgeLaw, FirstHearingLaw};
ghost use Rattle.chart.specs.Laws.{ReceiveHearingLaw, SendHearingLaw, NoSendLaw, OtherNameLaw, SendLaw, NoCycleLaw};
ghost use Rattle.chart.specs.Laws.{OtherLineLaw, CloseLineLaw, SendLineLaw, ReceiveLineLaw, NewSendLaw, NewSendOwnLaw};
ghost use Rattle.chart.specs.Laws.{NewSendKnowledgeLaw, NewSendHearingLaw, MessageSendLaw, OneSendLaw, NewReceiveLaw};
ghost use Rattle.chart.specs.Laws.{NewReceiveHearingLaw, NewReportLaw, LegalGrowthLaw, PlaceGrowthLaw, SendGrowthLaw};
ghost use Rattle.chart.specs.Laws.{BelongingGrowthLaw, OrderGrowthLaw, KnowledgeGrowthLaw, ReportGrowthLaw};
ghost use Rattle.chart.specs.Laws.{HearingGrowthLaw, OneKnowledgeLaw, OneHearingLaw, OneReportLaw};

/// A reserved word of the chart text is refused as a name by F4, and not by another fault.
pub fn keyword_law()
    ensures { KeywordLaw }
{}

/// What is enforced before a receive on its own line, given what its send knows; and therefore the receive's report.
pub fn report_law()
    ensures before { ReportLaw }
    ensures races { RacesLaw }
{}

/// What a send knows. It knows all of its own line up to itself, if it is the last of the line or the chart has no
/// cycle. Of another line it knows the greatest number of events that its own line heard of before it.
pub fn knowledge_law()
    ensures own { OwnKnowledgeLaw }
    ensures other_lines { KnowledgeLaw }
{}

/// What is heard along a line. At first nothing is heard; at a receive, what its send knows; at a send, nothing.
pub fn hearing_law()
    ensures first { FirstHearingLaw }
    ensures receive { ReceiveHearingLaw }
    ensures send { SendHearingLaw }
{}

/// In the chart of a legal history each receive has its send, with its name, and no event is before itself.
pub fn legal_law()
    ensures send { NoSendLaw }
    ensures name { OtherNameLaw }
    ensures belongs { SendLaw }
    ensures acyclic { NoCycleLaw }
{}

/// What one more occurrence adds to the lines.
pub fn line_law()
    ensures other_lines { OtherLineLaw }
    ensures close { CloseLineLaw }
    ensures send { SendLineLaw }
    ensures receive { ReceiveLineLaw }
{}

/// What one more send is in the chart, what it knows, and that nothing is heard at it.
pub fn new_send_law()
    ensures send { NewSendLaw }
    ensures own { NewSendOwnLaw }
    ensures other_lines { NewSendKnowledgeLaw }
    ensures hearing { NewSendHearingLaw }
{}

/// Where the sends of a lane's messages are, each at one place.
pub fn lane_law()
    ensures message { MessageSendLaw }
    ensures once { OneSendLaw }
{}

/// Which send one more receive belongs to, what is heard at it, and what its report is.
pub fn new_receive_law()
    ensures belongs { NewReceiveLaw }
    ensures hearing { NewReceiveHearingLaw }
    ensures report { NewReportLaw }
{}

/// Later occurrences leave all of this as it is.
pub fn growth_law()
    ensures legal { LegalGrowthLaw }
    ensures place { PlaceGrowthLaw }
    ensures send { SendGrowthLaw }
    ensures belonging { BelongingGrowthLaw }
    ensures order { OrderGrowthLaw }
    ensures knowledge { KnowledgeGrowthLaw }
    ensures report { ReportGrowthLaw }
    ensures hearing { HearingGrowthLaw }
{}

/// In the chart of a legal history each send knows exactly one number of events of each line. The greatest heard is
/// exactly one number, and each receive has exactly one report.
pub fn existence_law()
    ensures knowledge { OneKnowledgeLaw }
    ensures hearing { OneHearingLaw }
    ensures report { OneReportLaw }
{}
