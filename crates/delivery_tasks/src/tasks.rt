//! What is to be done for a delivery.

use delivery_turns::turn_records_lib::deliveries::Reading;
use host_data::data::{Data, Obj};
use refusals::codes::Refusal;
use refusals::host_text_lib::text::Text;
use world_reads::call_outcomes_lib::lists::Effects;

/// A function of an instance that is called.
#[derive(Drop)]
pub struct FunctionCall {
    /// The instance, by its number.
    pub instance: u32,
    pub function: Text,
    pub arguments: Vec<Data>,
}

/// What is to be done for a delivery.
#[derive(Drop)]
pub enum Task {
    /// The delivery is refused before anything is done.
    Refuse(Refusal),
    /// It has these effects, and is answered null.
    DoAll(Effects),
    /// A method of one of the host's own objects is called.
    Serve(Obj, Text, Vec<Data>),
    /// A function of an instance is run.
    Run(FunctionCall),
}

/// What is read for a delivery, and what is then to be done.
#[derive(Drop)]
pub struct Beginning {
    pub reading: Reading,
    pub task: Task,
}
