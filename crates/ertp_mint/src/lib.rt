//! Rights on their way and the stores that hold them (ERTP's mint): a `Parcel` can't be copied,
//! made elsewhere or dropped, and each call that makes or ends one moves exactly its content.
#![tactic(auto)]

mod balance;
mod circulation;
mod circulations;
mod keys_out;
mod parcel;
mod place;
mod places;

/// What `amount_math` gives to those above.
pub mod amount_math_lib {
    pub use amount_math::{Amount, Holding, Key, Kind, MINTED_BOUND, NAT_BOUND, PutFault, Value};

    pub mod shortfall {
        pub use amount_math::shortfall::{LossFault, show_shortfall};
    }
}

pub use balance::Balance;
pub use circulations::Circulations;
pub use parcel::Parcel;
