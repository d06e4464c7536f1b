//! Laws of the definitions that the engines' contracts cite. Each function is there for its clause alone.

ghost use Rattle.arrivals.specs.Laws.{ArrivalsBegin, ArrivalsOfMessages, OneListOfArrivals};

/// Records have a list of arrivals where the text of each connection has a list of messages; that each text has one is
/// what `http_requests::count_messages` says.
pub fn arrivals_of_messages()
    ensures { ArrivalsOfMessages }
{}

/// The records of a capture have one list of arrivals.
pub fn one_list_of_arrivals()
    ensures { OneListOfArrivals }
{}

/// The arrivals of the first records are the first arrivals.
pub fn arrivals_begin()
    ensures { ArrivalsBegin }
{}
