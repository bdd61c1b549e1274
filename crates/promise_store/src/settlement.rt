//! What a promise is settled with.

use host_data::data::Data;

/// What a promise is settled with (eventual send: it is fulfilled, or it is broken and the data is
/// the reason).
pub enum Settlement {
    /// The data is no promise: one that is resolved to another follows that one, and isn't settled.
    Ok(Data),
    Broken(Data),
}

impl Drop for Settlement {
    fn drop(self) {
        match self {
            Settlement::Ok(_) => {}
            Settlement::Broken(_) => {}
        }
    }
}
