//! The words of the command line.

ghost use Rattle.std.specs.Prelude.{◌≡◌, [], ◌∷◌, decimal, map, string_bytes, IfSome};
ghost use Rattle.xs_bench.specs.Words.{bank_call_word, call_word, class_word, kind_word, layer_call_word, machine_word, rows_of_machine, signal_call_word, SpellsCommand};

use xs_area::Class;
use xs_base::Features;
use xs_layout::Layout;

/// A machine whose table is built in.
#[derive(Clone, Copy)]
pub enum Machine {
    /// The components of a processor with AVX-512, protection keys and AMX.
    Amx,
    /// x87, SSE and AVX alone.
    Avx,
}

/// A bank of registers.
#[derive(Clone, Copy)]
pub enum BankKind {
    /// `xs_bank::PlainBank`.
    Plain,
    /// `xs_bank::TrackBank`.
    Track,
}

/// An instruction of a bank, by what it has to move. Its components are those of the machine but PKRU.
#[derive(Clone, Copy)]
pub enum BankCall {
    /// `Bank::xsaves` where every component is in use, into another area than the one that was loaded.
    SaveFull,
    /// `Bank::xsaves` where every component is in use, into the area that was loaded; since then SSE alone was written.
    SaveOne,
    /// `Bank::xsaves` where every component is in use, into the area that was loaded; since then none was written.
    SaveUnmodified,
    /// `Bank::xsaves` where every component is initial.
    SaveInitial,
    /// `Bank::xrstors` of an area that has state of every component.
    LoadFull,
    /// `Bank::xrstors` of an area that in turn has state of every component and of SSE alone.
    LoadOne,
    /// `Bank::xrstors` of an area that in turn has state of every component and of none.
    LoadInitial,
}

/// A call of the layers that has no bank, or what stands beside it.
#[derive(Clone, Copy)]
pub enum LayerCall {
    /// `xs_regs::File::standard_into`.
    StandardInto,
    /// `xs_area::standard_of`.
    StandardOf,
    /// `xs_area::compact_of`.
    CompactOf,
    /// `xs_area::copy_area`.
    CopyArea,
    /// `xs_regset::get` of the Xstate set.
    GetXstate,
    /// `xs_regset::set` of the Xstate set.
    SetXstate,
    /// `xs_tile::grow`.
    Grow,
    /// A plain copy of as many bytes as the standard format has.
    Copy,
    /// A plain copy of as many bytes as the compacted format has without PKRU.
    CopyCompacted,
    /// A plain copy of as many bytes as the standard format has without TILEDATA.
    CopySmall,
    /// A plain copy of as many bytes as SSE has with the header.
    CopyOne,
    /// A plain copy of as many bytes as the header has.
    CopyHeader,
    /// None: the loop alone.
    Nothing,
    /// `xs_text::write_event`, the line of an event.
    WriteEvent,
    /// A plain copy of the line.
    CopyEvent,
}

/// A step of a signal's handler, on `xs_bank::TrackBank` with every register in use that the task has room for.
#[derive(Clone, Copy)]
pub enum SignalCall {
    /// `xs_frame::deliver` and `xs_frame::sigreturn` after it.
    Both,
    /// `xs_frame::sigreturn`.
    Return,
}

/// A call that is made many times.
#[derive(Clone, Copy)]
pub enum Call {
    /// A call without a bank.
    Layer(LayerCall),
    /// An instruction of a bank.
    Bank(BankKind, BankCall),
    /// A step of a signal's handler, for a task with an area of this class.
    Signal(SignalCall, Class),
}

/// What the words ask for.
#[derive(Clone, Copy)]
pub enum Command {
    /// To print a machine's table.
    Layout(Machine),
    /// To print the places of these components in the compacted format.
    Places(Machine, Features),
    /// To make a call so many times.
    Repeat(Call, u64),
}

impl Machine {
    /// The machine's table.
    pub fn layout(self) -> Layout
        ensures { result ≡ rows_of_machine self }
    {
        match self {
            Machine::Amx => Layout::amx(),
            Machine::Avx => Layout::avx(),
        }
    }

    /// The machine's name on the command line.
    pub fn name(self) -> &'static str
        ensures { result.now ≡ machine_word self }
    {
        match self {
            Machine::Amx => "amx",
            Machine::Avx => "avx",
        }
    }
}

/// The command that the words spell, if any.
pub fn parse(words: &[String]) -> Option<Command>
    ensures { IfSome result (SpellsCommand (map string_bytes words.now)) }
{
    match words {
        [command, machine] => parse_two(command.as_str(), machine.as_str()),
        [command, subject, number] => {
            parse_three(command.as_str(), subject.as_str(), number.as_str())
        }
        _ => None,
    }
}

/// The command of two words.
fn parse_two(command: &str, machine: &str) -> Option<Command>
    ensures { IfSome result (SpellsCommand (command.now ∷ machine.now ∷ [])) }
{
    match command {
        "layout" => Some(Command::Layout(machine_of(machine)?)),
        _ => None,
    }
}

/// The command of three words.
fn parse_three(command: &str, subject: &str, number: &str) -> Option<Command>
    ensures { IfSome result (SpellsCommand (command.now ∷ subject.now ∷ number.now ∷ [])) }
{
    let value = number_of(number)?;
    match command {
        "places" => Some(Command::Places(machine_of(subject)?, Features(value))),
        "repeat" => Some(Command::Repeat(call_of(subject)?, value)),
        _ => None,
    }
}

/// The machine of this name.
fn machine_of(word: &str) -> Option<Machine>
    ensures { IfSome result (λ machine. word.now ≡ machine_word machine) }
{
    match word {
        "amx" => Some(Machine::Amx),
        "avx" => Some(Machine::Avx),
        _ => None,
    }
}

/// The number that a word spells in decimal, with no sign and no needless zero in front.
fn number_of(word: &str) -> Option<u64>
    ensures { IfSome result (λ number. word.now ≡ decimal number) }
{
    let number = word.parse::<u64>().ok()?;
    let first = *word.as_bytes().first()?;
    if first == b'+' {
        return None;
    }
    if first == b'0' && word.len() != 1 {
        return None;
    }
    Some(number)
}

/// The call of this name: one without a bank, or a bank, a dash and an instruction of it, or a step of a signal's handler, a dash
/// and a class of areas.
fn call_of(word: &str) -> Option<Call>
    ensures { IfSome result (λ call. word.now ≡ call_word call) }
{
    if let Some(call) = layer_call_of(word) {
        return Some(Call::Layer(call));
    }
    let (front, back) = word.split_once('-')?;
    match kind_of(front) {
        Some(kind) => Some(Call::Bank(kind, instruction_of(back)?)),
        None => Some(Call::Signal(signal_call_of(front)?, class_of(back)?)),
    }
}

/// The call without a bank of this name.
fn layer_call_of(word: &str) -> Option<LayerCall>
    ensures { IfSome result (λ call. word.now ≡ layer_call_word call) }
{
    match word {
        "standard-into" => Some(LayerCall::StandardInto),
        "standard-of" => Some(LayerCall::StandardOf),
        "compact-of" => Some(LayerCall::CompactOf),
        "copy-area" => Some(LayerCall::CopyArea),
        "get-xstate" => Some(LayerCall::GetXstate),
        "set-xstate" => Some(LayerCall::SetXstate),
        "grow" => Some(LayerCall::Grow),
        "copy" => Some(LayerCall::Copy),
        "copy-compacted" => Some(LayerCall::CopyCompacted),
        "copy-small" => Some(LayerCall::CopySmall),
        "copy-one" => Some(LayerCall::CopyOne),
        "copy-header" => Some(LayerCall::CopyHeader),
        "nothing" => Some(LayerCall::Nothing),
        "write-event" => Some(LayerCall::WriteEvent),
        "copy-event" => Some(LayerCall::CopyEvent),
        _ => None,
    }
}

/// The bank of this name.
fn kind_of(word: &str) -> Option<BankKind>
    ensures { IfSome result (λ kind. word.now ≡ kind_word kind) }
{
    match word {
        "plain" => Some(BankKind::Plain),
        "track" => Some(BankKind::Track),
        _ => None,
    }
}

/// The instruction of this name.
fn instruction_of(word: &str) -> Option<BankCall>
    ensures { IfSome result (λ call. word.now ≡ bank_call_word call) }
{
    match word {
        "xsaves-full" => Some(BankCall::SaveFull),
        "xsaves-one" => Some(BankCall::SaveOne),
        "xsaves-unmodified" => Some(BankCall::SaveUnmodified),
        "xsaves-initial" => Some(BankCall::SaveInitial),
        "xrstors-full" => Some(BankCall::LoadFull),
        "xrstors-one" => Some(BankCall::LoadOne),
        "xrstors-initial" => Some(BankCall::LoadInitial),
        _ => None,
    }
}

/// The step of a signal's handler of this name.
fn signal_call_of(word: &str) -> Option<SignalCall>
    ensures { IfSome result (λ call. word.now ≡ signal_call_word call) }
{
    match word {
        "signal" => Some(SignalCall::Both),
        "sigreturn" => Some(SignalCall::Return),
        _ => None,
    }
}

/// The class of areas of this name.
fn class_of(word: &str) -> Option<Class>
    ensures { IfSome result (λ class. word.now ≡ class_word class) }
{
    match word {
        "small" => Some(Class::Small),
        "large" => Some(Class::Large),
        _ => None,
    }
}
