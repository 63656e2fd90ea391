//! What the moves before an instruction fetch, and where those behind it end: the base of an
//! address out of its slot, an operand into its register, a result into its place.
//!
//! There is no code here. `specs/Onwards.antt` says how instructions lead on within a function, and
//! by how many steps; `specs/Tame.antt` which effects leave alone what stays through the run of a
//! function. Where reload has chosen a plan, the moves before the instruction fetch all that it
//! asks for, each into a register of t3 to t6, and each new tree is then read as its operand; and a
//! plain instruction with its moves leads by as many steps as they are to what it comes to.
//!
//! The laws are `before_fetched` in `proofs/BeforeFetched`, `new_tree_is` in `proofs/NewReads`, and
//! `window_comes_from` in `proofs/AroundWindow`. Their proofs, by files of `proofs/`, in the order
//! of the argument:
//!
//! 1. What reload knows of operands is so, once homes are put in.
//!    - `SmallTrees`: trees of a register, memory or a sum, and what is said of a tree by its parts
//!    - `FoundParts`: the operands that a pattern has found are parts of what it matches
//!    - `Based`: what the address is of an operand whose base is in a slot, or that is far
//!    - `GivenBases`: the base that reload knows of stands in its slot
//!    - `HomedQuiet`: none of t3 to t6 stands in the tree
//!    - `GivenOperands`: so all of it is so
//! 2. One operand, or its base, is fetched into a register.
//!    - `Bounded`: a value in a width has no more bits than the width
//!    - `NewOnes`: how a new tree is read: a register, or the operand with one in its address
//!    - `Loads`: what instructions fetch a base and an operand, and requests in a row
//!    - `OnRegister`: an operand with a register in its address is read as the operand
//!    - `FetchOne`: the instructions of the moves fetch a base and an input
//! 3. All moves before an instruction fetch what it asks for.
//!    - `AsksBefore`: what asks for a register, each once
//!    - `Firsts`: of operands that share a register, the first asks for it
//!    - `Fetching`: what is asked of the state, and what each is to fetch
//!    - `TurnParts`: what one operand asks for, with its value and its base
//!    - `Turns`: the moves of each operand in its turn, and the far bases
//!    - `Contents`: what the registers then hold of each operand, also of those that share
//!    - `BeforeFetched`: so all is fetched
//!    - `GivenFetching`: and is so for an instruction of a function, in a state with its frame
//! 4. With that, new trees are read as the operands in whose places they stand.
//!    - `NewReads`: each has the value of its operand
//!    - `NewPlaces`: what stands for an operand that stays is memory, or the operand is a sum
//! 5. The moves before it, the instruction and the moves behind it stand in a function.
//!    - `Window`: what a row of instructions leads to, and what stays true behind each
//!    - `Endings`: results end where they are to end, one behind the other
//!    - `Through`: what registers hold meanwhile, for each result
//!    - `Keeping`: moves and tame effects leave what stays through the run
//!    - `Stepping`: a step of the function for each instruction
//!    - `PlainWindow`: what is promised of a plain instruction with its moves: `ComesTo`
//!    - `AroundWindow`: so it is where its results are made behind the other effects
#![tactic(auto)]
