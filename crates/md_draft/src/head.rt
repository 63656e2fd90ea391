//! The heads of forms, and the classes of registers, by their names.
ghost use Rattle.std.specs.Prelude.{◌≡◌, find};
ghost use Rattle.std.specs.Str.{bytes_eq};
ghost use Rattle.md_draft.specs.Head as spec;

/// What a form defines.
#[derive(Clone, Copy)]
pub enum FormHead {
    /// An instruction: what it matches and how it is printed.
    Insn,
    /// The instructions for a standard name.
    Expand,
    /// Instructions in place of one that is matched.
    Split,
    /// An instruction and its split.
    InsnAndSplit,
    /// Instructions in place of several.
    Peephole2,
    /// A predicate of operands.
    Predicate,
    /// A predicate that doesn't look at the mode by itself.
    SpecialPredicate,
    /// A constraint of operands.
    Constraint,
    /// A constraint that admits the registers of a class.
    RegisterConstraint,
    /// A constraint that admits memory.
    MemoryConstraint,
    /// An attribute of instructions.
    Attr,
    /// Another file, in the place of the form; as a form it is one whose parts are wrong. So are
    /// those that follow.
    Include,
    /// Constants.
    Constants,
    /// An iterator of modes.
    ModeIterator,
    /// An attribute of modes.
    ModeAttr,
    /// An iterator of codes.
    CodeIterator,
    /// An attribute of codes.
    CodeAttr,
    /// An iterator of integers.
    IntIterator,
    /// An attribute of integers.
    IntAttr,
}

/// A class of registers.
#[derive(Clone, Copy)]
pub enum RegisterClass {
    /// All of them.
    General,
    /// The registers in which arguments stand.
    Args,
    /// The registers that a call leaves.
    Saved,
    /// None.
    Nothing,
}

/// Every head, once.
const HEADS: [FormHead; 19] = [
    FormHead::Insn,
    FormHead::Expand,
    FormHead::Split,
    FormHead::InsnAndSplit,
    FormHead::Peephole2,
    FormHead::Predicate,
    FormHead::SpecialPredicate,
    FormHead::Constraint,
    FormHead::RegisterConstraint,
    FormHead::MemoryConstraint,
    FormHead::Attr,
    FormHead::Include,
    FormHead::Constants,
    FormHead::ModeIterator,
    FormHead::ModeAttr,
    FormHead::CodeIterator,
    FormHead::CodeAttr,
    FormHead::IntIterator,
    FormHead::IntAttr,
];

/// Every class, once.
const CLASSES: [RegisterClass; 4] = [
    RegisterClass::General,
    RegisterClass::Args,
    RegisterClass::Saved,
    RegisterClass::Nothing,
];

fn all_heads() -> &'static [FormHead]
    ensures { result.now ≡ spec.all_heads }
{
    &HEADS
}

fn all_classes() -> &'static [RegisterClass]
    ensures { result.now ≡ spec.all_classes }
{
    &CLASSES
}

/// The text of each head, in the order of the heads.
static HEAD_NAMES: [&str; 19] = [
    "define_insn",
    "define_expand",
    "define_split",
    "define_insn_and_split",
    "define_peephole2",
    "define_predicate",
    "define_special_predicate",
    "define_constraint",
    "define_register_constraint",
    "define_memory_constraint",
    "define_attr",
    "include",
    "define_constants",
    "define_mode_iterator",
    "define_mode_attr",
    "define_code_iterator",
    "define_code_attr",
    "define_int_iterator",
    "define_int_attr",
];

impl FormHead {
    /// The head's text, as `define_insn`.
    pub fn name(self) -> &'static str
        ensures { result.now ≡ spec.head_name self }
    {
        HEAD_NAMES[self as usize]
    }

    fn is_named(self, text: &[u8]) -> bool
        ensures { result ≡ bytes_eq (spec.head_name self) text.now }
    {
        self.name().as_bytes() == text
    }

    /// The head with this text, or `None` where it isn't taken.
    #[tactic(auto, unfolding(crate::specs::Head::head_named))]
    pub fn named(text: &[u8]) -> Option<FormHead>
        ensures { result ≡ spec.head_named text.now }
    {
        first_named(all_heads(), text)
    }
}

/// The first of some heads that has this text.
fn first_named(heads: &[FormHead], text: &[u8]) -> Option<FormHead>
    ensures { result ≡ find (λ head. bytes_eq (spec.head_name head) text.now) heads.now }
{
    for head in heads {
        if head.is_named(text) {
            return Some(*head);
        }
    }
    None
}

/// The name of each class, in the order of the classes.
static CLASS_NAMES: [&str; 4] = ["GR_REGS", "ARG_REGS", "SAVED_REGS", "NO_REGS"];

impl RegisterClass {
    /// The class's name, as `GR_REGS`.
    pub fn name(self) -> &'static str
        ensures { result.now ≡ spec.class_name self }
    {
        CLASS_NAMES[self as usize]
    }

    fn is_named(self, text: &[u8]) -> bool
        ensures { result ≡ bytes_eq (spec.class_name self) text.now }
    {
        self.name().as_bytes() == text
    }

    /// The class with this name, or `None` where no class has it.
    #[tactic(auto, unfolding(crate::specs::Head::class_named))]
    pub fn named(text: &[u8]) -> Option<RegisterClass>
        ensures { result ≡ spec.class_named text.now }
    {
        for class in all_classes() {
            if class.is_named(text) {
                return Some(*class);
            }
        }
        None
    }
}
