//! Laws of the definitions that the engines' contracts cite. Each function is there for its clause alone.

ghost use Rattle.reference.specs.Laws.{AnsweredNotFaulty, AnsweredNotFull, DueBegin, FaultyNotFull, OneFault, OneLimit};
ghost use Rattle.reference.specs.Laws.{FormerAnswersHold, HandledBegin, OneAnswer};
ghost use Rattle.reference.specs.Laws.{SpeedDividesTicks};
ghost use Rattle.reference.specs.Laws.{AnswersByMeaning, SameInVersionOne, UpgradeKeepsReplies};
ghost use Rattle.reference.specs.Laws.{RepliesInRequestOrder, RowsAgree, StartsOnceFree, TariffsChangeNoReply};
ghost use Rattle.reference.specs.Laws.{UpgradeKeepsAnswers};

/// Neither a table nor a route changes a reply: what a request costs decides who is turned away, and no more.
pub fn tariffs_change_no_reply()
    ensures { TariffsChangeNoReply }
{}

/// A capture has one answer.
pub fn one_answer()
    ensures { OneAnswer }
{}

/// Where numbers are used once, a number's replies are those to its connection's messages, in their order.
pub fn replies_in_request_order()
    ensures { RepliesInRequestOrder }
{}

/// Of an answer, a fault of its capture, and messages beyond the limit, no input of known bytes has two, whatever the
/// settings. (Failed reads and writes and being out of memory come where they happen.)
pub fn one_outcome()
    ensures not_faulty { AnsweredNotFaulty }
    ensures not_full { AnsweredNotFull }
    ensures faulty_not_full { FaultyNotFull }
{}

/// An input of known bytes has one fault of its capture at most, and one text is written up to it.
pub fn one_fault()
    ensures { OneFault }
{}

/// Where messages go beyond the limit, one text is written up to it.
pub fn one_limit()
    ensures { OneLimit }
{}

/// What becomes of a message depends on the messages before it alone.
pub fn handled_begin()
    ensures { HandledBegin }
{}

/// The replies that are due for the first records are the first of those due for all.
pub fn due_begins()
    ensures { DueBegin }
{}

/// Where each key that came since is at its default, a capture of version 1 has the answer that it had when there was
/// one policy and one server: that policy is the first, and each request stands in the tally of tier 0.
pub fn same_in_version_one()
    ensures { SameInVersionOne }
{}

/// What was the answer when there were no tiers is the answer now, where each key that came since is at its default,
/// whatever the policies of tiers 1 to 3.
pub fn former_answers_hold()
    ensures { FormerAnswersHold }
{}

/// A capture of version 1 and its upgraded text have the same answers, whatever the policies of tiers 1 to 3.
pub fn upgrade_keeps_answers()
    ensures { UpgradeKeepsAnswers }
{}

/// A text and its upgraded one have the same answers: a capture has the replies of the same traffic in the format for
/// recordings that are days long.
pub fn upgrade_keeps_replies()
    ensures { UpgradeKeepsReplies }
{}

/// A row of the table of decisions says that a request was rejected exactly where its reply turns it away.
pub fn rows_agree()
    ensures { RowsAgree }
{}

/// The service of an admitted request begins when it came, or once it has waited as long as its row says.
pub fn starts_once_free()
    ensures { StartsOnceFree }
{}

/// Messages of the same numbers, ticks, tiers and meanings have the same replies, summary and table, wherever they lie.
pub fn answers_by_meaning()
    ensures { AnswersByMeaning }
{}

/// Traffic that comes faster is answered as if it had been recorded with its ticks divided so.
pub fn speed_divides_ticks()
    ensures { SpeedDividesTicks }
{}
