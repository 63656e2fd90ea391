//! What an instruction does of which operands are moved: the moves before it, the instruction with
//! registers of t3 to t6 in the places of what is moved, and the moves after it.
//!
//! There is no code here. `specs/Chosen.antt` says what is known of the plan that reload has chosen.
//! The moves fetch what they are to fetch (`law_operands_fetched`), and results end where they are
//! to end, so they and the instruction lead by as many steps as they are to the memory that the
//! instruction leaves by itself, and to registers of which, t3 to t6 apart, as much is known; a
//! jump goes the same way, and a call calls the same (`law_operands_replaced`).
//!
//! The laws that `law_reload` takes from here are `plain_leads` in `proofs/PlainLeads`, and
//! `jump_leads` and `call_leads` in `proofs/Leads`. They speak of an instruction of a function, of
//! which `proofs/Reloaded` says what is asked: a pattern matches it, and the plan is sound
//! (`IsSoundPlan` of `reload_choice`) for what `specs/Chosen.antt` says it is chosen from. What they
//! promise is `ComesTo` (`proofs/PlainWindow` of `law_operands_fetched`), `JumpLeads` and
//! `CallLeads`. Their proofs, by files of `proofs/`, in the order of the argument:
//!
//! 1. An instruction with references to the frame and homes put in is within the table of codes.
//!    - `Shaping`: a tree is so where its parts are like those of one that is
//!    - `FramedTrees`: what a tree becomes as a part, with references to the frame put in
//!    - `FramedGood`: with these put in it is within the table still
//!    - `HomedTrees`: with homes put in no low part is left, and numbers of registers stay natural
//!    - `HomedShapes`: a row fits still where its parts are alike but for registers
//!    - `HomedShaped`: so with homes put in a tree is within the table still
//!    - `StandingRegisters`: a register of a tree stands in it still, or its home does
//! 2. The operands of the pattern stand at their places in the instruction.
//!    - `Matched`: what stands in an operand's place is its tree with homes put in
//!    - `Besides`: each part of the pattern has the tree's part beside it
//!    - `InputPlaces`: what a pattern takes itself, and what it takes in the place of a register
//!    - `TakenThere`: so each operand that it takes stands in the tree, or in a low part
//!    - `TakenPlaces`: an operand that stands in the tree is taken, or is a scratch
//! 3. The plan has a new tree for each operand that is moved, or has a register in its address.
//!    - `NewsLaws`: which operand a new tree is for
//!    - `Chosen`: the new tree at a place is that of the operand that stands there
//!    - `GivenNews`: each is read as its operand, once operands and bases are fetched
//!    - `GivenBeside`: so the pattern's effects stand beside those of the instruction
//!    - `Reloaded`: what is known of an instruction of a function, and of the state before it
//! 4. Each input has a value, so that it can be fetched.
//!    - `ElementValues`: an input of one effect
//!    - `InputValues`: an input of a plain instruction
//!    - `JumpValues`: an input of a jump
//!    - `CallValues`: an input of a call
//! 5. Behind the moves before it, the instruction does what it does by itself.
//!    - `PlainInner`: it has its effects, but that a result that is moved sets its own register
//!    - `OtherInner`: a jump, and what is common to it and a call
//!    - `CallInner`: a call, and that nothing is moved behind what isn't plain
//! 6. Results that are moved may be made behind the other effects of the instruction.
//!    - `ResultKeys`: an effect with a key, the place of the operand whose result it sets
//!    - `ResultNumbers`: no two operands have one number
//!    - `ResultRows`: an effect, beside the pattern's and the tree before homes are put in
//!    - `RowsThere`: all effects so, in order
//!    - `Touches`: an effect changes nothing, a hard register, a slot, or other memory (in no slot)
//!    - `Orderly`: one of a result is apart from a later one, or is overridden by it
//!    - `AllOrderly`: so all effects of the instruction
//!    - `SoleRows`, `AllSoles`: where a result ends in other memory, no other operand changes such
//!    - `ResultsOrderly`: so the results may be delayed
//! 7. Each result has a register that holds it, and one effect that is its last.
//!    - `ResultsHeld`: the registers of results hold them behind the instruction
//!    - `ResultsLast`, `EachLast`: some effect sets each result, and one is the last that does
//!    - `OwnHeld`: what the register holds is what the last effect has set
//! 8. The address of a result is still the same when the result is moved to it.
//!    - `SteadyAddress`: one without memory in it, whose registers are left
//!    - `LeftRegisters`: an instruction leaves the registers that no effect of it changes
//!    - `GivenSteady`: the address of a slot, and of other memory, without a base to be fetched
//!    - `OldAddresses`: that of other memory has a value in the function; its registers are live
//!    - `OutsideSlots`: what is stored in other memory is in no slot
//!    - `SparedRows`: where a result ends there, other effects store in no slot of its address
//!    - `StillSlots`: behind these stores the function's memory is as it was
//!    - `LateAddress`: so the address has its value still
//!    - `BasesHeld`: the register of a result's base holds it still
//! 9. The moves behind the instruction take each result where it is to end.
//!    - `OutEffects`: an instruction that sets what the effect has set
//!    - `NearEnds`: a result that one instruction moves
//!    - `NewEnds`: one whose base is in a slot, or that is far
//!    - `ResultsEnd`: results end one after the other
//!    - `ResultBases`: what the registers of bases hold meanwhile, and far results
//!    - `ResultEnds`: each result ends, near or far
//!    - `ResultsMayEnd`: so all end, where the plan is sound
//! 10. All of it together.
//!    - `PlainGiven`: what effects with homes put in change, and what they store where
//!    - `Taming`: they leave alone what stays through the run of a function
//!    - `PlainAround`: a plain instruction between its moves, where its results may be delayed
//!    - `Leads`: what all kinds have in common; a jump goes the same way, a call calls the same
//!    - `PlainLeads`: a plain instruction with its moves leads to what its effects leave
#![tactic(auto)]
