//! What an instruction does with new trees in the places of its operands: its effects are as
//! before, but for the registers into which results go, a jump goes the same way, and a call calls
//! the same.
//!
//! There is no code here. `specs/Places.antt` says where the operands of a pattern stand;
//! `specs/Spare.antt` what is known, and what is kept, of the registers outside t3 to t6;
//! `specs/Held.antt` what registers hold once something is fetched into them, each by a move of its
//! own; `specs/Straight.antt` how instructions that neither jump nor call lead on. Where each new
//! tree is read as the operand in whose place it stands, each effect of the instruction with them
//! is that of the instruction, or is one that a move behind it takes to where it is to end.
//!
//! The laws are `insn_keyed` in `proofs/WholeTurns`, `jump_becomes` in `proofs/Jumping`, and
//! `event_becomes` in `proofs/Calling`. Their proofs, by files of `proofs/`, in the order of the
//! argument:
//!
//! 1. Effects and settings, before any operand is replaced.
//!    - `Cells`: what effects leave at one address, and in one register
//!    - `Registers`: registers by what a look-up gives
//!    - `Instead`: effects that stand for others: they may change t3 to t6 besides
//!    - `Settings`: what one setting of a register or of memory does
//!    - `SetWidth`: a set that has an effect changes a register or memory, in a width
//!    - `StraightLaws`: straight instructions, one part behind the other
//! 2. A tree with new trees in the places of operands is read as it was.
//!    - `NewTrees`: what such a tree is
//!    - `Readings`: an expression has the same value of parts that are read the same
//!    - `ReadTrees`: so has a tree, where each new one has the value of what it stands for
//!    - `Addresses`: what is asked of new trees, and addresses in which they stand
//!    - `Putting`, `PutParts`: what stands where new trees are put in, in a whole and in its parts
//!    - `PutValues`: so the tree with them put in has its value
//!    - `Valued`: where an expression has a value, so has each operand in it
//! 3. Each effect of the instruction stays, or sets the register of a result that is moved.
//!    - `Elements`: what a set does with its target or its source replaced
//!    - `Turning`: the effects of the instruction, each as before or on such a register
//!    - `Keying`: the same, with the place of the result that each effect sets: its key
//!    - `SetTurns`: a set whose target stays
//!    - `SetValues`: what a set reads has values
//!    - `ElementTurns`: a set of the pattern, beside the instruction's
//!    - `EffectTurns`: a use and a clobber of the pattern
//!    - `HiddenTurns`: an effect in which each new tree is read, as under an operator
//!    - `InsnTurns`: one effect of the pattern, whichever it is
//!    - `WholeTurns`: so all effects of the instruction, each with its key
//!    - `EffectsThere`: the memory of each store is there
//! 4. Operands are fetched before it, and results are moved behind it.
//!    - `Fetches`: what is fetched into registers, one behind the other
//!    - `Delays`: effects that are made behind others from which they are apart
//!    - `Keyed`: so the results, in the order of the operands, the last effect of each
//!    - `Ends`: each result from its register to where it ends
//! 5. Jumps and calls.
//!    - `JumpTrees`: what a jump is made of
//!    - `Jumping`: a jump with new trees goes the same way
//!    - `Calling`: a call with new trees calls the same, with the same arguments
#![tactic(auto)]
