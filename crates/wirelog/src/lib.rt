// The wire log: what passed between a controller and its chain, as a row of records. Relies on nothing of the chain.
#![tactic(auto)]

pub mod flat;
pub mod kinds;
pub mod put;
pub mod record;
pub mod walk;
