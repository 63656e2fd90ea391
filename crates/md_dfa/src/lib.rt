//! The pipeline that a machine description defines: units, and the reservations of instructions.
//!
//! [`pipeline_in`] reads both from the forms of a description, and passes over each form that is
//! outside what is read here (`specs/Pipeline.antt`). The reservation
//! of an instruction is the first whose test holds, by the attributes of the form that matches it and
//! of its alternative ([`Pipeline::reservation`]); [`Pipeline::latency`] and [`Pipeline::ways`] give
//! what stands in it. None of the four methods takes memory.
#![tactic(auto)]

mod pipeline;
mod reservation;
mod test;
mod units;

pub use pipeline::{Pipeline, pipeline_in};
pub use reservation::Reservation;
pub use test::{Question, Test, Tests};
