//! Tests of the parts on what no line of cases holds: inputs that are generated, files, sources and
//! sinks that fail, and values without a text.
//!
//! The tests stand in a crate of their own, since a crate with tests is proved twice; those of whole
//! runs stand in the program `rtlc`.
#![tactic(auto)]

#[cfg(test)]
mod byte_edge_tests;
#[cfg(test)]
mod code_tests;
#[cfg(test)]
mod cond_tests;
#[cfg(test)]
mod desc_tests;
#[cfg(test)]
mod long_tests;
#[cfg(test)]
mod plain_data_tests;
#[cfg(test)]
mod plain_tests;
#[cfg(test)]
mod pool_tests;
#[cfg(test)]
mod reg_tests;
#[cfg(test)]
mod rtx_tree_tests;
#[cfg(test)]
mod source_tests;
#[cfg(test)]
mod term_tests;
