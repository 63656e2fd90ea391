//! Operands of instructions, written out.
//!
//! There is no code here. An operand of which a predicate or a constraint says that it is a register, a
//! constant, a symbol or memory is a tree of that code. Each of these laws is that such a tree, where
//! the instruction has the parts and modes of its codes, is one that is written out: it has no other
//! parts, no name but that of a symbol, and the mode that the predicate asks for
//! (`proofs/Leaves.antt`, `proofs/Addresses.antt`).
#![tactic(auto)]
