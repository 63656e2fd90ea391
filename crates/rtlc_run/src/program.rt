//! The whole program as one call.
ghost use Rattle.std.specs.Prelude.{◌≡◌, ◌≢◌, ◌⊎◌, ℕ, Ok, List, ◌≤◌, true, IfSome, IsSome, IfOk, IfErr, OnOk, OnErr, length, Some, Option, Err, Contains, ◌∷◌, [], false};
ghost use Rattle.std.specs.Io.KnownBytes.{Appends, Consumes, IsAtEnd};
ghost use Rattle.byte_edge.specs.Causes.{Rose};
ghost use Rattle.rtx_tree.specs.declared.function.Function.{Function};
ghost use Rattle.func_run.specs.Run.{TakesEnough};
ghost use Rattle.rv_text.specs.Body.{Spells};
ghost use Rattle.rv_text.specs.declared.line.CodeItem.{CodeItem};
ghost use Rattle.run_refusal.specs.Refusals.{has_values};
ghost use Rattle.run_refusal.specs.declared.refusal.Refusal.TheVariants as refusal;
ghost use Rattle.rtx_tree.specs.Limit.{most_bytes};
ghost use Rattle.func_input.specs.Input.{InputComesTo, IsRead};
ghost use Rattle.plain_text.specs.Plain.{ComeToLines};
ghost use Rattle.func_input.specs.Outcome.{Outcome};
ghost use Rattle.pass_name.specs.declared.road.Road.{Road};
ghost use Rattle.func_image.specs.Image.{ImageComes};
ghost use Rattle.func_image.specs.func_text.Same.{AreParts};
ghost use Rattle.func_image.specs.func_text.Compile.{TextComes};
ghost use Rattle.func_image.specs.func_text.Code.{IsUnnamed};
ghost use Rattle.md_source.specs.Source.{Source as Known};
ghost use Rattle.md_source.specs.Asked.{AreNamed, GrewBy, IsKnown};
ghost use Rattle.md_source.specs.Answers.{Agrees};
ghost use Rattle.md_source.specs.Faults.{FaultsAt, AsksBy};
ghost use Rattle.md_forms.specs.declared.form.Entry.{Entry};
ghost use Rattle.md_named.specs.Named.{FormsCome};
ghost use Rattle.rtlc_words.specs.declared.command.Command.{Command};
ghost use Rattle.rtlc_words.specs.declared.command.Command.TheVariants as commands;
ghost use Rattle.rtlc_words.specs.declared.command.Told.TheVariants as telling;
ghost use Rattle.rtlc_words.specs.Words as spoken;
ghost use Rattle.rtlc_words.specs.Words.{words_of};
ghost use Rattle.rtlc_run.specs.Answer as spec;
ghost use Rattle.rtlc_run.specs.Shown.{line_told};
ghost use Rattle.rtlc_run.specs.Told.{EvalComes, RecogComes, CyclesCome, DumpComes, ToldComes};
ghost use Rattle.rtlc_run.specs.Written.{WritesSame, WritesSameFramed, WritesWords, WritesText, HasText, IsDone};
ghost use Rattle.rtlc_run.specs.machine.Steps.{Gives, IsOwn, InputRefused};
ghost use Rattle.rtlc_run.specs.Answer.{ByForms, OverInput, CommandComes, Answers, IsMissing, IsMisused, reads_input, reads_files, IsKnownFor, MayBeAsked, NoneRose, ReadFails, Writes, WritesFront, IsRefused, Reports, HasCause, TellsCause, IsAnswered};

use crate::shown::line_told;
use crate::summary::summary_of;
use byte_edge::{Files, ReadAll, Sink, Source, read_all, write_all_of};
use code_eval::eval_text;
use func_image::{assembly_of, code_of, cycles_of, dump_of, image_of, recog_of};
use md_desc::Description;
use md_list::{ListRefusal, list};
use md_named::{description_of, source_refused};
use md_source::SHIPPED;
use pass_name::{Pass, Road};
use plain_text::plain_of;
use rtlc_words::{Command, Told, command_of};
use rtx_tree::{Limit, MOST_BYTES, MOST_FORMS, Name};
use run_refusal::{MEMORY_LINE, Refusal, fixed_line, status};
use std::alloc::Global;

/// The bytes of the input, to its end.
fn input_bytes<S: Source>(alloc: Global, input: &mut S) -> Result<Vec<u8>, Refusal>
    ensures all { IfOk result (λ bytes. Consumes (S.left input.old) (S.left input.new) bytes.items ×
        IsAtEnd (S.left input.new)) }
    ensures within { IfOk result (λ bytes. length bytes.items ≤ most_bytes) }
    ensures cause { IfErr result (InputRefused (S.left input.old)) }
    ensures fault { result ≡ Err Refusal.ReadFault →
        Rose (S.fault_count input.old) (S.fault_count input.new) }
    ensures quiet { result ≢ Err Refusal.ReadFault →
        S.fault_count input.new ≡ S.fault_count input.old }
{
    match read_all(alloc, input, MOST_BYTES) {
        Ok(bytes) => Ok(bytes),
        Err(ReadAll::Fault) => Err(Refusal::ReadFault),
        Err(ReadAll::TooLong) => Err(Refusal::Limit {
            which: Limit::Text,
            count: MOST_BYTES as u64 + 1,
        }),
        Err(ReadAll::Memory) => Err(Refusal::Memory),
    }
}

/// The text of the assembly of the functions among bytes, by a road.
fn assembled(
    alloc: Global,
    description: &Description,
    road: Road,
    bytes: &[u8],
) -> Result<Vec<u8>, Refusal>
    requires { length bytes.now ≤ most_bytes }
    ensures gives { Gives result (TextComes description.now road bytes.now) }
    ensures own { IsOwn result }
    ensures read { result ≢ Err Refusal.ReadFault }
{
    assembly_of(alloc, description, road, bytes)
}

/// The forms of the instructions of the functions among bytes.
fn recognised(alloc: Global, description: &Description, bytes: &[u8]) -> Result<Vec<u8>, Refusal>
    requires { length bytes.now ≤ most_bytes }
    ensures gives { Gives result (RecogComes description.now bytes.now) }
    ensures own { IsOwn result }
    ensures read { result ≢ Err Refusal.ReadFault }
{
    recog_of(alloc, description, bytes)
}

/// The cycles of the instructions of the functions among bytes.
fn cycled(alloc: Global, description: &Description, bytes: &[u8]) -> Result<Vec<u8>, Refusal>
    requires { length bytes.now ≤ most_bytes }
    ensures gives { Gives result (CyclesCome description.now bytes.now) }
    ensures own { IsOwn result }
    ensures read { result ≢ Err Refusal.ReadFault }
{
    cycles_of(alloc, description, bytes)
}

/// The words of the image of the functions among bytes.
fn imaged(alloc: Global, description: &Description, bytes: &[u8]) -> Result<Vec<u8>, Refusal>
    requires { length bytes.now ≤ most_bytes }
    ensures gives { Gives result (ImageComes description.now bytes.now) }
    ensures own { IsOwn result }
    ensures read { result ≢ Err Refusal.ReadFault }
{
    image_of(alloc, description, bytes)
}

/// The functions among bytes as they are behind a pass.
fn dumped(
    alloc: Global,
    description: &Description,
    pass: Pass,
    bytes: &[u8],
) -> Result<Vec<u8>, Refusal>
    requires { length bytes.now ≤ most_bytes }
    ensures gives { Gives result (DumpComes pass description.now bytes.now) }
    ensures own { IsOwn result }
    ensures read { result ≢ Err Refusal.ReadFault }
{
    dump_of(alloc, description, pass, bytes)
}

/// The outcomes of a function among bytes and of its code.
fn outcomes_of(
    alloc: Global,
    description: &Description,
    bytes: &[u8],
    function: &Name,
    steps: u16,
    args: [u64; 8],
) -> Result<Vec<u8>, Refusal>
    requires { length bytes.now ≤ most_bytes }
    ensures gives { Gives result (EvalComes function.now steps args description.now bytes.now) }
    ensures usage { result ≡ Err Refusal.Usage → IsUnnamed bytes.now function.now }
    ensures unwritten { result ≢ Err Refusal.WriteFault }
    ensures read { result ≢ Err Refusal.ReadFault }
{
    let coded = code_of(alloc, description, bytes, function.bytes())?;
    Ok(eval_text(alloc, &coded.function, coded.items.as_slice(), steps, args)?)
}

/// What is told of the functions among bytes by a description.
fn made(
    alloc: Global,
    description: &Description,
    bytes: &[u8],
    told: &Told,
) -> Result<Vec<u8>, Refusal>
    requires { length bytes.now ≤ most_bytes }
    ensures gives { Gives result (ToldComes told.now description.now bytes.now) }
    ensures usage { result ≡ Err Refusal.Usage → IsMissing told.now bytes.now }
    ensures unwritten { result ≢ Err Refusal.WriteFault }
    ensures read { result ≢ Err Refusal.ReadFault }
{
    match told {
        Told::Lines { road } => assembled(alloc, description, *road, bytes),
        Told::Forms => recognised(alloc, description, bytes),
        Told::Cycles => cycled(alloc, description, bytes),
        Told::Words => imaged(alloc, description, bytes),
        Told::Behind { pass } => dumped(alloc, description, *pass, bytes),
        Told::Outcomes {
            function,
            steps,
            args,
        } => outcomes_of(alloc, description, bytes, function, *steps, *args),
    }
}

/// What is told of the functions of the input by a description.
fn made_of<S: Source>(
    alloc: Global,
    input: &mut S,
    description: &Description,
    told: &Told,
) -> Result<Vec<u8>, Refusal>
    ensures gives { (known : Known) (name : List ℕ) → FormsCome known name (Ok description.now) →
        Gives result (ByForms (OverInput told.now (S.left input.old)) known name) }
    ensures usage { result ≡ Err Refusal.Usage →
        IfSome (S.left input.old) (λ bytes. IsMissing told.now bytes) }
    ensures unwritten { result ≢ Err Refusal.WriteFault }
    ensures fault { result ≡ Err Refusal.ReadFault →
        Rose (S.fault_count input.old) (S.fault_count input.new) }
    ensures quiet { result ≢ Err Refusal.ReadFault →
        S.fault_count input.new ≡ S.fault_count input.old }
{
    let bytes = input_bytes(alloc, input)?;
    made(alloc, description, &bytes, told)
}

/// Which of the functions among bytes are of the plain profile.
fn plain_lines(alloc: Global, bytes: &[u8]) -> Result<Vec<u8>, Refusal>
    requires { length bytes.now ≤ most_bytes }
    ensures gives { Gives result (InputComesTo ComeToLines bytes.now) }
    ensures own { IsOwn result }
    ensures read { result ≢ Err Refusal.ReadFault }
{
    plain_of(alloc, bytes)
}

/// Which functions of the input are of the plain profile.
fn told_plain<S: Source>(alloc: Global, input: &mut S) -> Result<Vec<u8>, Refusal>
    ensures gives { (known : Known) →
        Gives result (CommandComes known (S.left input.old) commands.Plain) }
    ensures own { IsOwn result }
    ensures fault { result ≡ Err Refusal.ReadFault →
        Rose (S.fault_count input.old) (S.fault_count input.new) }
    ensures quiet { result ≢ Err Refusal.ReadFault →
        S.fault_count input.new ≡ S.fault_count input.old }
{
    let bytes = input_bytes(alloc, input)?;
    plain_lines(alloc, &bytes)
}

fn list_refused(refusal: ListRefusal) -> Refusal
    ensures { result ≡ spec.list_refused refusal }
{
    match refusal {
        ListRefusal::Source(refusal) => source_refused(refusal),
        ListRefusal::Forms => Refusal::Limit {
            which: Limit::Forms,
            count: MOST_FORMS as u64 + 1,
        },
        ListRefusal::Memory => Refusal::Memory,
    }
}

/// The name of a description: that of the shipped one where none is given.
fn described(name: &Option<Name>) -> &[u8]
    ensures { result.now ≡ spec.described name.entry.now }
{
    match name {
        Some(name) => name.bytes(),
        None => SHIPPED,
    }
}

/// The list of a description.
fn listed<F: Files>(alloc: Global, files: &mut F, name: &Option<Name>) -> Result<Vec<u8>, Refusal>
    ensures gives { (known : Known) → Agrees known (F.holds files.old) → (input : Option (List ℕ)) →
        Gives result (CommandComes known input (commands.Listed name.now)) }
    ensures asked { (known : Known) → Agrees known (F.holds files.old) →
        GrewBy (AreNamed known (spec.described name.now)) (F.asked files.old) (F.asked files.new) }
    ensures own { IsOwn result }
    ensures faulted { result ≡ Err Refusal.ReadFault →
        (known : Known) → Agrees known (F.holds files.old) →
        AsksBy (FaultsAt known (spec.described name.now)) (F.asked files.old) (F.asked files.new) }
    ensures fault { result ≡ Err Refusal.ReadFault →
        Rose (F.fault_count files.old) (F.fault_count files.new) }
    ensures quiet { result ≢ Err Refusal.ReadFault →
        F.fault_count files.new ≡ F.fault_count files.old }
{
    match list(alloc, files, described(name)) {
        Ok(text) => Ok(text),
        Err(e) => Err(list_refused(e)),
    }
}

/// The summary of a generated function by the description of a name.
fn generated<F: Files>(
    alloc: Global,
    files: &mut F,
    name: &Option<Name>,
    number: u16,
) -> Result<Vec<u8>, Refusal>
    ensures gives { (known : Known) → Agrees known (F.holds files.old) → (input : Option (List ℕ)) →
        Gives result (CommandComes known input (commands.Made name.now number)) }
    ensures asked { (known : Known) → Agrees known (F.holds files.old) →
        GrewBy (AreNamed known (spec.described name.now)) (F.asked files.old) (F.asked files.new) }
    ensures own { IsOwn result }
    ensures faulted { result ≡ Err Refusal.ReadFault →
        (known : Known) → Agrees known (F.holds files.old) →
        AsksBy (FaultsAt known (spec.described name.now)) (F.asked files.old) (F.asked files.new) }
    ensures fault { result ≡ Err Refusal.ReadFault →
        Rose (F.fault_count files.old) (F.fault_count files.new) }
    ensures quiet { result ≢ Err Refusal.ReadFault →
        F.fault_count files.new ≡ F.fault_count files.old }
{
    let description = description_of(alloc, files, described(name))?;
    summary_of(alloc, &description, number)
}

/// What is told of the functions of the input by the description of a name, which is looked at
/// first.
fn made_by<F: Files, S: Source>(
    alloc: Global,
    files: &mut F,
    input: &mut S,
    name: &Option<Name>,
    told: &Told,
) -> Result<Vec<u8>, Refusal>
    ensures gives { (known : Known) → Agrees known (F.holds files.old) →
        Gives result (CommandComes known (S.left input.old) (commands.Over name.now told.now)) }
    ensures asked { (known : Known) → Agrees known (F.holds files.old) →
        GrewBy (AreNamed known (spec.described name.now)) (F.asked files.old) (F.asked files.new) }
    ensures usage { result ≡ Err Refusal.Usage →
        IfSome (S.left input.old) (λ bytes. IsMissing told.now bytes) }
    ensures unwritten { result ≢ Err Refusal.WriteFault }
    ensures faulted { result ≡ Err Refusal.ReadFault →
        (known : Known) → Agrees known (F.holds files.old) →
        ReadFails known (F.fault_count files.old) (F.fault_count files.new)
        (S.fault_count input.old) (S.fault_count input.new) (F.asked files.old) (F.asked files.new)
        (Some (commands.Over name.now told.now)) }
    ensures fault { result ≡ Err Refusal.ReadFault →
        Rose (S.fault_count input.old) (S.fault_count input.new) ⊎
        Rose (F.fault_count files.old) (F.fault_count files.new) }
    ensures quiet { result ≢ Err Refusal.ReadFault →
        S.fault_count input.new ≡ S.fault_count input.old }
    ensures calm { result ≢ Err Refusal.ReadFault →
        F.fault_count files.new ≡ F.fault_count files.old }
{
    let description = description_of(alloc, files, described(name))?;
    made_of(alloc, input, &description, told)
}

/// The text that a command comes to. The description is looked at first, and then the input where
/// the command reads it.
fn produced<F: Files, S: Source>(
    alloc: Global,
    command: Command,
    files: &mut F,
    input: &mut S,
) -> Result<Vec<u8>, Refusal>
    ensures gives { (known : Known) → Agrees known (F.holds files.old) →
        Gives result (CommandComes known (S.left input.old) command) }
    ensures asked { (known : Known) → Agrees known (F.holds files.old) →
        GrewBy (MayBeAsked known (Some command)) (F.asked files.old) (F.asked files.new) }
    ensures unwritten { result ≢ Err Refusal.WriteFault }
    ensures usage { result ≡ Err Refusal.Usage → IsMisused (Some command) (S.left input.old) }
    ensures faulted { result ≡ Err Refusal.ReadFault →
        (known : Known) → Agrees known (F.holds files.old) →
        ReadFails known (F.fault_count files.old) (F.fault_count files.new)
        (S.fault_count input.old) (S.fault_count input.new) (F.asked files.old) (F.asked files.new)
        (Some command) }
    ensures fault { result ≡ Err Refusal.ReadFault →
        Rose (S.fault_count input.old) (S.fault_count input.new) ⊎
        Rose (F.fault_count files.old) (F.fault_count files.new) }
    ensures quiet { result ≢ Err Refusal.ReadFault →
        S.fault_count input.new ≡ S.fault_count input.old }
    ensures calm { result ≢ Err Refusal.ReadFault →
        F.fault_count files.new ≡ F.fault_count files.old }
    ensures files { reads_files (Some command) ≡ false → files.new ≡ files.old }
    ensures input { reads_input (Some command) ≡ false → input.new ≡ input.old }
{
    match command {
        Command::Over { description, told } => made_by(alloc, files, input, &description, &told),
        Command::Plain => told_plain(alloc, input),
        Command::Listed { description } => listed(alloc, files, &description),
        Command::Made {
            description,
            number,
        } => generated(alloc, files, &description, number),
    }
}

/// The text that the words come to. Nothing is read before they are a command.
fn answered<F: Files, S: Source>(
    alloc: Global,
    words: &[&str],
    files: &mut F,
    input: &mut S,
) -> Result<Vec<u8>, Refusal>
    ensures gives { (known : Known) → Agrees known (F.holds files.old) →
        Gives result (Answers (words_of words.now) known (S.left input.old)) }
    ensures usage { result ≡ Err Refusal.Usage →
        IsMisused (spoken.command_of (words_of words.now)) (S.left input.old) }
    ensures unwritten { result ≢ Err Refusal.WriteFault }
    ensures faulted { result ≡ Err Refusal.ReadFault →
        (known : Known) → Agrees known (F.holds files.old) →
        ReadFails known (F.fault_count files.old) (F.fault_count files.new)
        (S.fault_count input.old) (S.fault_count input.new) (F.asked files.old) (F.asked files.new)
        (spoken.command_of (words_of words.now)) }
    ensures asked { (known : Known) → Agrees known (F.holds files.old) →
        GrewBy (MayBeAsked known (spoken.command_of (words_of words.now))) (F.asked files.old)
        (F.asked files.new) }
    ensures fault { result ≡ Err Refusal.ReadFault →
        Rose (S.fault_count input.old) (S.fault_count input.new) ⊎
        Rose (F.fault_count files.old) (F.fault_count files.new) }
    ensures quiet { result ≢ Err Refusal.ReadFault →
        S.fault_count input.new ≡ S.fault_count input.old }
    ensures calm { result ≢ Err Refusal.ReadFault →
        F.fault_count files.new ≡ F.fault_count files.old }
    ensures files { reads_files (spoken.command_of (words_of words.now)) ≡ false →
        files.new ≡ files.old }
    ensures input { reads_input (spoken.command_of (words_of words.now)) ≡ false →
        input.new ≡ input.old }
{
    match command_of(alloc, words)? {
        Some(command) => produced(alloc, command, files, input),
        None => Err(Refusal::Usage),
    }
}

/// Writes what the words come to.
fn attempt<F: Files, S: Source, K: Sink>(
    alloc: Global,
    words: &[&str],
    files: &mut F,
    input: &mut S,
    output: &mut K,
) -> Result<(), Refusal>
    ensures done { (known : Known) → Agrees known (F.holds files.old) →
        OnOk result (Writes (words_of words.now) known (S.left input.old) (K.taken output.old)
        (K.taken output.new)) }
    ensures cause { (known : Known) → Agrees known (F.holds files.old) →
        IfErr result (IsRefused (words_of words.now) known (S.left input.old)) }
    ensures front { result ≡ Err Refusal.WriteFault → (known : Known) →
        Agrees known (F.holds files.old) →
        WritesFront (words_of words.now) known (S.left input.old) (K.taken output.old)
        (K.taken output.new) }
    ensures usage { result ≡ Err Refusal.Usage →
        IsMisused (spoken.command_of (words_of words.now)) (S.left input.old) }
    ensures nothing { OnErr result (result ≢ Err Refusal.WriteFault →
        K.taken output.new ≡ K.taken output.old) }
    ensures faulted { result ≡ Err Refusal.ReadFault →
        (known : Known) → Agrees known (F.holds files.old) →
        ReadFails known (F.fault_count files.old) (F.fault_count files.new)
        (S.fault_count input.old) (S.fault_count input.new) (F.asked files.old) (F.asked files.new)
        (spoken.command_of (words_of words.now)) }
    ensures asked { (known : Known) → Agrees known (F.holds files.old) →
        GrewBy (MayBeAsked known (spoken.command_of (words_of words.now))) (F.asked files.old)
        (F.asked files.new) }
    ensures files { reads_files (spoken.command_of (words_of words.now)) ≡ false →
        files.new ≡ files.old }
    ensures input { reads_input (spoken.command_of (words_of words.now)) ≡ false →
        input.new ≡ input.old }
    ensures fault { result ≡ Err Refusal.ReadFault →
        Rose (S.fault_count input.old) (S.fault_count input.new) ⊎
        Rose (F.fault_count files.old) (F.fault_count files.new) }
    ensures quiet { result ≢ Err Refusal.ReadFault →
        S.fault_count input.new ≡ S.fault_count input.old }
    ensures calm { result ≢ Err Refusal.ReadFault →
        F.fault_count files.new ≡ F.fault_count files.old }
    ensures write { result ≡ Err Refusal.WriteFault →
        Rose (K.fault_count output.old) (K.fault_count output.new) }
    ensures still { result ≢ Err Refusal.WriteFault →
        K.fault_count output.new ≡ K.fault_count output.old }
{
    let text = answered(alloc, words, files, input)?;
    match write_all_of(output, &text) {
        Ok(()) => Ok(()),
        Err(_) => Err(Refusal::WriteFault),
    }
}

/// Writes a line to the sink of errors. Where that fails the line is lost, which changes no status.
fn tell<E: Sink>(errors: &mut E, text: &[u8])
    ensures { ¬ Rose (E.fault_count errors.old) (E.fault_count errors.new) →
        Appends (E.taken errors.old) (E.taken errors.new) text.now }
{
    let _ = write_all_of(errors, text);
}

/// Tells of want of memory, and gives its status.
pub fn out_of_memory<E: Sink>(errors: &mut E) -> u8
    ensures status { result ≡ 8 }
    ensures told { ¬ Rose (E.fault_count errors.old) (E.fault_count errors.new) →
        Appends (E.taken errors.old) (E.taken errors.new) (line_told refusal.Memory) }
{
    tell(errors, MEMORY_LINE);
    8
}

/// Tells of a refusal whose line has values in it, and gives the status.
fn report_values<E: Sink>(alloc: Global, errors: &mut E, refusal: Refusal) -> u8
    requires { has_values refusal ≡ true }
    ensures { Reports refusal result (E.taken errors.old) (E.taken errors.new)
        (E.fault_count errors.old) (E.fault_count errors.new) }
{
    let status = status(&refusal);
    match line_told(alloc, refusal) {
        Ok(text) => {
            tell(errors, &text);
            status
        }
        Err(_) => out_of_memory(errors),
    }
}

/// Tells of a refusal on its line, and gives the status: that of the refusal, or 8 where its line
/// finds no memory.
fn report<E: Sink>(alloc: Global, errors: &mut E, refusal: Refusal) -> u8
    ensures { Reports refusal result (E.taken errors.old) (E.taken errors.new)
        (E.fault_count errors.old) (E.fault_count errors.new) }
{
    match fixed_line(&refusal) {
        Some(text) => {
            tell(errors, text);
            status(&refusal)
        }
        None => report_values(alloc, errors, refusal),
    }
}

/// The whole program. `words` are those after the program's name: `asm`, `reuse`, `schedule`,
/// `list`, `recog`, `cycles`, `dump PASS`, `eval NAME STEPS` with up to eight numbers, `make N`,
/// `image`, or `plain`, and, but for `plain`, `--md NAME` at most once.
/// `files` are asked for a description that is named and for what it includes, `input` is read by
/// all but `list` and `make`. The text is written to `output`, the line of a refusal to `errors`,
/// and the exit status is given: 0, or that of the [`Refusal`].
///
/// A count rose in a call where it is greater after it than before, or stands after it at its last
/// value. `Known` is what is known of the bytes of files by their names, and agrees with what the
/// files hold.
pub fn run<F: Files, S: Source, K: Sink, E: Sink>(
    alloc: Global,
    words: &[&str],
    files: &mut F,
    input: &mut S,
    output: &mut K,
    errors: &mut E,
) -> u8
    // The answer: where no count rose and memory was there, the run ends with the answer to the
    // words, the files and the input.
    ensures answer { (known : Known) → Agrees known (F.holds files.old) →
        NoneRose (F.fault_count files.old) (F.fault_count files.new) (S.fault_count input.old)
        (S.fault_count input.new) (K.fault_count output.old) (K.fault_count output.new) →
        result ≢ 8 →
        IsAnswered (words_of words.now) known (S.left input.old) result (K.taken output.old)
        (K.taken output.new)
        (E.taken errors.old) (E.taken errors.new) (E.fault_count errors.old)
        (E.fault_count errors.new) }

    // Where enough is known there is one.
    ensures one { (known : Known) (left : Option (List ℕ)) (a b : Outcome) →
        IsKnownFor known left (spoken.command_of (words_of words.now)) →
        Answers (words_of words.now) known left a → Answers (words_of words.now) known left b →
        a ≡ b }

    // Every command: the text of status 0 says of the description and of the input what the command
    // tells; and where its answer is a text, no count rose and memory was there, that is written.
    ensures means { (known : Known) → Agrees known (F.holds files.old) → (c : Command) →
        spoken.command_of (words_of words.now) ≡ Some c → result ≡ 0 →
        WritesText known c (S.left input.old) (K.taken output.old) (K.taken output.new) }
    ensures done { (known : Known) → Agrees known (F.holds files.old) → (c : Command) →
        spoken.command_of (words_of words.now) ≡ Some c →
        NoneRose (F.fault_count files.old) (F.fault_count files.new) (S.fault_count input.old)
        (S.fault_count input.new) (K.fault_count output.old) (K.fault_count output.new) →
        HasText known (S.left input.old) c → IsDone result }

    // What the text of `asm` does, and that of `reuse` and of `schedule`: on each road, the lines
    // that it spells for each function do what the function does, whatever the description, where
    // there is room for a frame of some size, which is at most 1,048,560; so they do where there is
    // room for the frame that the function has by the description on this road.
    ensures behaves { (name : Option (List ℕ)) (road : Road) →
        spoken.command_of (words_of words.now) ≡
        Some (commands.Over name (telling.Lines road)) →
        result ≡ 0 → WritesSame (S.left input.old) (K.taken output.old) (K.taken output.new) }
    ensures framed { (known : Known) → Agrees known (F.holds files.old) →
        (name : Option (List ℕ)) (road : Road) →
        spoken.command_of (words_of words.now) ≡
        Some (commands.Over name (telling.Lines road)) →
        result ≡ 0 →
        WritesSameFramed known road (spec.described name) (S.left input.old) (K.taken output.old)
        (K.taken output.new) }

    // What the text of `image` does: it is that of an image, and at the entry of each function there
    // stand words that do what the function does, in each world that has the image's addresses,
    // where there is room for a frame of some size, which is at most 1,048,560.
    ensures words { (name : Option (List ℕ)) →
        spoken.command_of (words_of words.now) ≡ Some (commands.Over name telling.Words) →
        result ≡ 0 → WritesWords (S.left input.old) (K.taken output.old) (K.taken output.new) }

    // Bytes are read as the functions of one list only, and the forms of a description of which all
    // is known are one list or one refusal.
    ensures one_input { (bytes : List ℕ) (a b : List Function) → IsRead bytes a → IsRead bytes b →
        a ≡ b }
    ensures one_description { (known : Known) (name : List ℕ) (a b : spec.Given) →
        IsKnown known name → FormsCome known name a → FormsCome known name b → a ≡ b }

    // The lines and labels of a text are the only ones: each text spells one list of them, and the
    // text of some functions is cut into their parts in one way.
    ensures spelled { (text : List ℕ) (a b : List CodeItem) → Spells text a → Spells text b →
        a ≡ b }
    ensures parts { (functions : List Function) (text : List ℕ) (a b : List (List CodeItem)) →
        AreParts functions text a → AreParts functions text b → a ≡ b }

    // An endless run takes jumps or makes calls without end, and so asks an endless run of the
    // lines.
    ensures endless { TakesEnough }

    // Each status has its cause.
    ensures statuses { Contains (0 ∷ 1 ∷ 2 ∷ 3 ∷ 4 ∷ 5 ∷ 6 ∷ 7 ∷ 8 ∷ []) result }
    ensures ok { result ≡ 0 → (known : Known) → Agrees known (F.holds files.old) →
        Writes (words_of words.now) known (S.left input.old) (K.taken output.old)
        (K.taken output.new) }
    ensures usage { result ≡ 1 →
        IsMisused (spoken.command_of (words_of words.now)) (S.left input.old) }
    ensures cause { result ≢ 0 → (known : Known) → Agrees known (F.holds files.old) →
        HasCause (words_of words.now) known (S.left input.old) result }
    ensures read { result ≡ 6 → Rose (S.fault_count input.old) (S.fault_count input.new) ⊎
        Rose (F.fault_count files.old) (F.fault_count files.new) }
    ensures write { result ≡ 7 → Rose (K.fault_count output.old) (K.fault_count output.new) }
    // A fault of the input comes behind all that refuses a description; before one of the files
    // nothing that is read is refused; and nothing is read where the words are no command.
    ensures faulted { result ≡ 6 → (known : Known) → Agrees known (F.holds files.old) →
        ReadFails known (F.fault_count files.old) (F.fault_count files.new)
        (S.fault_count input.old) (S.fault_count input.new) (F.asked files.old) (F.asked files.new)
        (spoken.command_of (words_of words.now)) }
    ensures command { result ≡ 6 → IsSome (spoken.command_of (words_of words.now)) }

    // What is written: the text, a front of it after a write fault, and else nothing.
    ensures front { result ≡ 7 → (known : Known) → Agrees known (F.holds files.old) →
        WritesFront (words_of words.now) known (S.left input.old) (K.taken output.old)
        (K.taken output.new) }
    ensures nothing { result ≢ 0 → result ≢ 7 → K.taken output.new ≡ K.taken output.old }

    // What is told: the line of a refusal of that status with its cause, and with 0 nothing.
    ensures told { result ≢ 0 → ¬ Rose (E.fault_count errors.old) (E.fault_count errors.new) →
        (known : Known) → Agrees known (F.holds files.old) →
        TellsCause (words_of words.now) known (S.left input.old) result (E.taken errors.old)
        (E.taken errors.new) }

    ensures silent { result ≡ 0 → E.taken errors.new ≡ E.taken errors.old }

    // Faults that did not end the run did not happen.
    ensures quiet { result ≢ 6 → S.fault_count input.new ≡ S.fault_count input.old }
    ensures calm { result ≢ 6 → F.fault_count files.new ≡ F.fault_count files.old }

    // Files are asked for the description that is named, if any, and for what is included, never
    // for the shipped one; the input is read by all but `list` and `make`.
    ensures asked { (known : Known) → Agrees known (F.holds files.old) →
        GrewBy (MayBeAsked known (spoken.command_of (words_of words.now))) (F.asked files.old)
        (F.asked files.new) }
    ensures files { reads_files (spoken.command_of (words_of words.now)) ≡ false →
        files.new ≡ files.old }
    ensures input { reads_input (spoken.command_of (words_of words.now)) ≡ false →
        input.new ≡ input.old }
{
    match attempt(alloc, words, files, input, output) {
        Ok(()) => 0,
        Err(refusal) => report(alloc, errors, refusal),
    }
}
