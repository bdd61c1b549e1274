//! What a turn's end makes of its answer and of its log. Its one contract: what the promise of a
//! delivery is settled with (that of a start with the record of its instance), of which brands the sums
//! are told, and the record of the turn are those that the definitions say.

pub mod brands;
pub mod laws;
pub mod records;
pub mod settlements;
pub mod start_records;
