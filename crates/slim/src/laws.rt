//! What holds of canonical blocks and of slim texts, whoever reads them. Each function is there for its clause alone.

ghost use Rattle.slim.specs.Laws.{BlockReads, NoLonger, QueriesChangeNothing, QueryAsksNothing};
ghost use Rattle.slim.specs.Laws.{QueryIsGone, SlimAgain, SlimFits, SlimKeepsDecisions, SlimKeepsReplies};
ghost use Rattle.slim.specs.Laws.{SlimKeepsRows};

/// A canonical block is read as the meaning that it was made of. Without the query it is no longer.
pub fn block_reads()
    ensures reads { BlockReads }
    ensures size { NoLonger }
{}

/// A request asks for the same without its query, whatever its method; and nothing of the query is left.
pub fn query_asks_nothing()
    ensures same { QueryAsksNothing }
    ensures gone { QueryIsGone }
{}

/// Messages without their queries have the same replies, the same summary, and the same table of decisions but for the
/// targets in it.
pub fn queries_change_nothing()
    ensures { QueriesChangeNothing }
{}

/// A traffic text has room for the slim text of a text of at most 135 GB. A capture's text has room for fewer bytes: a
/// slim text may be too large for it, where it holds many short requests in few pieces.
pub fn slim_fits()
    ensures { SlimFits }
{}

/// A slim text given again comes out unchanged.
pub fn slim_again()
    ensures { SlimAgain }
{}

/// A text of recorded traffic and its slim text have the same replies, the same summary, and the same table of
/// decisions, whatever the snapshot and the settings: without queries the table of the arrivals without them.
pub fn slim_keeps_answers()
    ensures replies { SlimKeepsReplies }
    ensures rows { SlimKeepsRows }
    ensures decisions { SlimKeepsDecisions }
{}
