//! The shipped description, in the form of GCC's.
ghost use Rattle.std.specs.Prelude.{◌≡◌};
ghost use Rattle.rv_target.specs.Shipped.{shipped_text};

/// The description of RV64I with M that is used where no other is named, and under the name
/// `rv64im`.
pub const RV64IM: &str = r##";; RV64IM: the description that is used where no other is named.

(define_constants [(SP_REGNUM 2)])

;; Modes, and what stands for each of them in names and templates.

(define_mode_iterator ANYI [QI HI SI DI])

(define_mode_iterator SUB [QI HI SI])

(define_mode_iterator SHORT [QI HI])

(define_mode_iterator GPR [SI DI])

(define_mode_attr w [(SI "w") (DI "")])

(define_mode_attr ld [(QI "lbu") (HI "lhu") (SI "lw")])

(define_mode_attr st [(QI "sb") (HI "sh") (SI "sw")])

(define_mode_attr sx [(QI "lb") (HI "lh")])

(define_mode_attr left [(QI "56") (HI "48")])

(define_mode_attr cnt [(SI "K") (DI "L")])

;; Codes, likewise.

(define_code_iterator LOG [and ior xor])

(define_code_iterator SH [ashift ashiftrt lshiftrt])

(define_code_iterator DIVS [div udiv mod umod])

(define_code_iterator LESS [lt ltu])

(define_code_iterator MORE [gt gtu])

(define_code_iterator ATLEAST [ge geu])

(define_code_iterator ATMOST [le leu])

(define_code_iterator EQS [eq ne])

(define_code_attr std [(and "and") (ior "ior") (xor "xor")
                       (ashift "ashl") (ashiftrt "ashr") (lshiftrt "lshr")])

(define_code_attr ins [(and "and") (ior "or") (xor "xor")
                       (ashift "sll") (ashiftrt "sra") (lshiftrt "srl")
                       (div "div") (udiv "divu") (mod "rem") (umod "remu")
                       (eq "seqz") (ne "snez")])

(define_code_attr u [(lt "") (ltu "u") (gt "") (gtu "u")
                     (ge "") (geu "u") (le "") (leu "u")])

;; Constraints.

(define_constraint "I" ""
  (and (match_code "const_int")
       (match_test "IN_RANGE (ival, -2048, 2047)")))

(define_constraint "J" ""
  (and (match_code "const_int")
       (match_test "ival == 0")))

(define_constraint "K" ""
  (and (match_code "const_int")
       (match_test "IN_RANGE (ival, 0, 31)")))

(define_constraint "L" ""
  (and (match_code "const_int")
       (match_test "IN_RANGE (ival, 0, 63)")))

;; Predicates.

(define_predicate "reg_or_0_operand"
  (ior (match_operand 0 "register_operand")
       (and (match_code "const_int")
            (match_test "INTVAL (op) == 0"))))

(define_predicate "reg_or_int_operand"
  (ior (match_operand 0 "register_operand")
       (match_operand 0 "const_int_operand")))

(define_predicate "call_operand"
  (ior (match_operand 0 "register_operand")
       (match_code "symbol_ref")))

;; Moves.

(define_expand "mov<mode>"
  [(set (match_operand:ANYI 0 "nonimmediate_operand")
        (match_operand:ANYI 1 "general_operand"))]
  ""
{
  if (!register_operand (operands[0], <MODE>mode)
      && !reg_or_0_operand (operands[1], <MODE>mode))
    operands[1] = force_reg (<MODE>mode, operands[1]);
})

(define_insn "*frame"
  [(set (match_operand:DI 0 "register_operand" "=r")
        (match_operand:DI 1 "frame_operand" ""))]
  ""
  "#")

(define_insn "*movdi"
  [(set (match_operand:DI 0 "nonimmediate_operand" "=r,r,r,r,m")
        (match_operand:DI 1 "general_operand" "r,n,s,m,rJ"))]
  "register_operand (operands[0], DImode)
   || reg_or_0_operand (operands[1], DImode)"
  "@
   mv\t%0,%1
   li\t%0,%1
   la\t%0,%1
   ld\t%0,%1
   sd\t%z1,%0")

(define_insn "*mov<mode>"
  [(set (match_operand:SUB 0 "nonimmediate_operand" "=r,r,r,m")
        (match_operand:SUB 1 "general_operand" "r,n,m,rJ"))]
  "register_operand (operands[0], <MODE>mode)
   || reg_or_0_operand (operands[1], <MODE>mode)"
  "@
   mv\t%0,%1
   li\t%0,%1
   <ld>\t%0,%1
   <st>\t%z1,%0")

;; Sums, differences, products and quotients.

(define_insn "add<mode>3"
  [(set (match_operand:GPR 0 "register_operand" "=r,r")
        (plus:GPR (match_operand:GPR 1 "register_operand" "r,r")
                  (match_operand:GPR 2 "reg_or_int_operand" "r,I")))]
  ""
  "add%i2<w>\t%0,%1,%2")

(define_insn "*addsi3_x"
  [(set (match_operand:DI 0 "register_operand" "=r,r")
        (sign_extend:DI
          (plus:SI (match_operand:SI 1 "register_operand" "r,r")
                   (match_operand:SI 2 "reg_or_int_operand" "r,I"))))]
  ""
  "add%i2w\t%0,%1,%2")

(define_insn "sub<mode>3"
  [(set (match_operand:GPR 0 "register_operand" "=r")
        (minus:GPR (match_operand:GPR 1 "reg_or_0_operand" "rJ")
                   (match_operand:GPR 2 "register_operand" "r")))]
  ""
  "sub<w>\t%0,%z1,%2")

(define_insn "*subsi3_x"
  [(set (match_operand:DI 0 "register_operand" "=r")
        (sign_extend:DI
          (minus:SI (match_operand:SI 1 "reg_or_0_operand" "rJ")
                    (match_operand:SI 2 "register_operand" "r"))))]
  ""
  "subw\t%0,%z1,%2")

(define_insn "mul<mode>3"
  [(set (match_operand:GPR 0 "register_operand" "=r")
        (mult:GPR (match_operand:GPR 1 "register_operand" "r")
                  (match_operand:GPR 2 "register_operand" "r")))]
  ""
  "mul<w>\t%0,%1,%2")

(define_insn "<code><mode>3"
  [(set (match_operand:GPR 0 "register_operand" "=r")
        (DIVS:GPR (match_operand:GPR 1 "register_operand" "r")
                  (match_operand:GPR 2 "register_operand" "r")))]
  ""
  "<ins><w>\t%0,%1,%2")

(define_insn "neg<mode>2"
  [(set (match_operand:GPR 0 "register_operand" "=r")
        (neg:GPR (match_operand:GPR 1 "register_operand" "r")))]
  ""
  "neg<w>\t%0,%1")

;; Bits and shifts.

(define_insn "one_cmpl<mode>2"
  [(set (match_operand:GPR 0 "register_operand" "=r")
        (not:GPR (match_operand:GPR 1 "register_operand" "r")))]
  ""
  "not\t%0,%1")

(define_insn_and_split "*and_mask"
  [(set (match_operand:DI 0 "register_operand" "=r")
        (and:DI (match_operand:DI 1 "register_operand" "r")
                (match_operand:DI 2 "const_int_operand" "n")))]
  "INTVAL (operands[2]) == 65535 || INTVAL (operands[2]) == 4294967295"
  "#"
  "&& 1"
  [(set (match_dup 0) (ashift:DI (match_dup 1) (match_dup 3)))
   (set (match_dup 0) (lshiftrt:DI (match_dup 0) (match_dup 3)))]
{
  operands[3] = GEN_INT (INTVAL (operands[2]) == 65535 ? 48 : 32);
})

(define_insn "<std><mode>3"
  [(set (match_operand:GPR 0 "register_operand" "=r,r")
        (LOG:GPR (match_operand:GPR 1 "register_operand" "r,r")
                 (match_operand:GPR 2 "reg_or_int_operand" "r,I")))]
  ""
  "<ins>%i2\t%0,%1,%2")

(define_insn "<std><mode>3"
  [(set (match_operand:GPR 0 "register_operand" "=r,r")
        (SH:GPR (match_operand:GPR 1 "register_operand" "r,r")
                (match_operand:QI 2 "reg_or_int_operand" "r,<cnt>")))]
  ""
  "<ins>%i2<w>\t%0,%1,%2")

(define_insn "*<std>si3_x"
  [(set (match_operand:DI 0 "register_operand" "=r,r")
        (sign_extend:DI
          (SH:SI (match_operand:SI 1 "register_operand" "r,r")
                 (match_operand:QI 2 "reg_or_int_operand" "r,K"))))]
  ""
  "<ins>%i2w\t%0,%1,%2")

;; Extensions and truncations.

(define_insn "extendsidi2"
  [(set (match_operand:DI 0 "register_operand" "=r,r")
        (sign_extend:DI (match_operand:SI 1 "nonimmediate_operand" "r,m")))]
  ""
  "@
   sext.w\t%0,%1
   lw\t%0,%1")

(define_insn "zero_extendsidi2"
  [(set (match_operand:DI 0 "register_operand" "=r,r")
        (zero_extend:DI (match_operand:SI 1 "nonimmediate_operand" "r,m")))]
  ""
  "@
   slli\t%0,%1,32\n\tsrli\t%0,%0,32
   lwu\t%0,%1")

(define_insn "extend<SHORT:mode><GPR:mode>2"
  [(set (match_operand:GPR 0 "register_operand" "=r,r")
        (sign_extend:GPR
          (match_operand:SHORT 1 "nonimmediate_operand" "r,m")))]
  ""
  "@
   slli\t%0,%1,<SHORT:left>\n\tsrai\t%0,%0,<SHORT:left>
   <SHORT:sx>\t%0,%1")

(define_insn "zero_extendqi<mode>2"
  [(set (match_operand:GPR 0 "register_operand" "=r,r")
        (zero_extend:GPR (match_operand:QI 1 "nonimmediate_operand" "r,m")))]
  ""
  "@
   andi\t%0,%1,255
   lbu\t%0,%1")

(define_insn "zero_extendhi<mode>2"
  [(set (match_operand:GPR 0 "register_operand" "=r,r")
        (zero_extend:GPR (match_operand:HI 1 "nonimmediate_operand" "r,m")))]
  ""
  "@
   slli\t%0,%1,48\n\tsrli\t%0,%0,48
   lhu\t%0,%1")

(define_insn "truncdi<mode>2"
  [(set (match_operand:SUB 0 "register_operand" "=r")
        (truncate:SUB (match_operand:DI 1 "register_operand" "r")))]
  ""
  "mv\t%0,%1")

(define_insn "truncsi<mode>2"
  [(set (match_operand:SHORT 0 "register_operand" "=r")
        (truncate:SHORT (match_operand:SI 1 "register_operand" "r")))]
  ""
  "mv\t%0,%1")

;; Comparisons.

(define_insn "*less"
  [(set (match_operand:GPR 0 "register_operand" "=r,r")
        (LESS:GPR (match_operand:DI 1 "register_operand" "r,r")
                  (match_operand:DI 2 "reg_or_int_operand" "r,I")))]
  ""
  "slt%i2<u>\t%0,%1,%2")

(define_insn "*more"
  [(set (match_operand:GPR 0 "register_operand" "=r")
        (MORE:GPR (match_operand:DI 1 "register_operand" "r")
                  (match_operand:DI 2 "reg_or_int_operand" "rJ")))]
  ""
  "slt<u>\t%0,%z2,%1")

(define_insn "*atleast"
  [(set (match_operand:GPR 0 "register_operand" "=r,r")
        (ATLEAST:GPR (match_operand:DI 1 "register_operand" "r,r")
                     (match_operand:DI 2 "reg_or_int_operand" "r,I")))]
  ""
  "slt%i2<u>\t%0,%1,%2\n\txori\t%0,%0,1")

(define_insn "*atmost"
  [(set (match_operand:GPR 0 "register_operand" "=r")
        (ATMOST:GPR (match_operand:DI 1 "register_operand" "r")
                    (match_operand:DI 2 "reg_or_int_operand" "rJ")))]
  ""
  "slt<u>\t%0,%z2,%1\n\txori\t%0,%0,1")

(define_insn "*eqs0"
  [(set (match_operand:GPR 0 "register_operand" "=r")
        (EQS:GPR (match_operand:DI 1 "register_operand" "r")
                 (const_int 0)))]
  ""
  "<ins>\t%0,%1")

(define_insn "*eqs"
  [(set (match_operand:GPR 0 "register_operand" "=r")
        (EQS:GPR (match_operand:DI 1 "register_operand" "r")
                 (match_operand:DI 2 "reg_or_int_operand" "r")))]
  ""
  "sub\t%0,%1,%2\n\t<ins>\t%0,%0")

(define_expand "cstoredi4"
  [(set (match_operand 0 "register_operand")
        (match_operator 1 "ordered_comparison_operator"
          [(match_operand:DI 2 "register_operand")
           (match_operand:DI 3 "reg_or_int_operand")]))]
  ""
  "")

(define_expand "cstoresi4"
  [(set (match_dup 4)
        (sign_extend:DI (match_operand:SI 2 "register_operand")))
   (set (match_dup 5)
        (sign_extend:DI (match_operand:SI 3 "register_operand")))
   (set (match_operand 0 "register_operand")
        (match_operator 1 "ordered_comparison_operator"
          [(match_dup 4) (match_dup 5)]))]
  ""
{
  operands[4] = gen_reg_rtx (DImode);
  operands[5] = gen_reg_rtx (DImode);
})

;; Branches, jumps, calls and returns.

(define_insn "cbranchdi4"
  [(set (pc)
        (if_then_else
          (match_operator 0 "ordered_comparison_operator"
            [(match_operand:DI 1 "register_operand" "r")
             (match_operand:DI 2 "reg_or_0_operand" "rJ")])
          (label_ref (match_operand 3 "" ""))
          (pc)))]
  ""
  "b%C0\t%1,%z2,%l3")

(define_expand "cbranchsi4"
  [(set (match_dup 4)
        (sign_extend:DI (match_operand:SI 1 "register_operand")))
   (set (match_dup 5)
        (sign_extend:DI (match_operand:SI 2 "register_operand")))
   (set (pc)
        (if_then_else
          (match_operator 0 "ordered_comparison_operator"
            [(match_dup 4) (match_dup 5)])
          (label_ref (match_operand 3 ""))
          (pc)))]
  ""
{
  operands[4] = gen_reg_rtx (DImode);
  operands[5] = gen_reg_rtx (DImode);
})

(define_insn "jump"
  [(set (pc) (label_ref (match_operand 0 "" "")))]
  ""
  "j\t%l0")

(define_insn "call"
  [(call (mem:SI (match_operand:DI 0 "call_operand" "s,r"))
         (match_operand 1 "" ""))]
  ""
  "@
   call\t%0
   jalr\tra,0(%0)")

(define_insn "call_value"
  [(set (match_operand 0 "register_operand" "=r,r")
        (call (mem:SI (match_operand:DI 1 "call_operand" "s,r"))
              (match_operand 2 "" "")))]
  ""
  "@
   call\t%1
   jalr\tra,0(%1)")

(define_insn "return"
  [(return)]
  ""
  "ret")

;; Two constants added to a register, one after the other.

(define_peephole2
  [(set (match_operand:DI 0 "register_operand")
        (plus:DI (match_dup 0)
                 (match_operand:DI 1 "const_int_operand")))
   (set (match_dup 0)
        (plus:DI (match_dup 0)
                 (match_operand:DI 2 "const_int_operand")))]
  "REGNO (operands[0]) != SP_REGNUM
   && IN_RANGE (INTVAL (operands[1]) + INTVAL (operands[2]), -2048, 2047)"
  [(set (match_dup 0)
        (plus:DI (match_dup 0) (match_dup 3)))]
{
  operands[3] = GEN_INT (INTVAL (operands[1]) + INTVAL (operands[2]));
})
"##;

/// The text of the shipped description. It takes no memory.
#[tactic(auto, unfolding(crate::specs::Shipped::shipped_text))]
pub fn shipped() -> &'static str
    ensures { result.now ≡ shipped_text }
{
    RV64IM
}
