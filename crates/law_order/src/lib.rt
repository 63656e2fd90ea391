//! What holds of jobs that are placed and come in an order.
//!
//! There is no code here. Of the cycles that jobs are given it is proved that each job comes late
//! enough behind each that it depends on (`specs/Late.antt`, `proofs/AllLate.antt`), and that each
//! takes units on one of its ways, no two the same unit in the same cycle (`specs/Apart.antt`,
//! `proofs/AllApart.antt`). Of their order it is proved that a job comes behind each that it depends
//! on (`specs/Late.antt`, `proofs/Behind.antt`), and that items in that order are the same items
//! (`specs/Ordered.antt`, `proofs/Same.antt`).
#![tactic(auto)]
