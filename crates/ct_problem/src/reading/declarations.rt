// The lines that declare names.
ghost use Rattle.std.specs.Prelude.{◌≡◌, [], string_bytes, IfOk, IsTrue};
ghost use Rattle.std.specs.Str.{IsAscii};
ghost use Rattle.ct_ore.specs.Naming.{action_of, naming_of, namings_of};
ghost use Rattle.ct_problem.specs.Declarations as spec;
ghost use Rattle.ct_problem.specs.Input.{ReadsBy};
ghost use Rattle.ct_problem.specs.Names.{is_new};

use crate::fault::{BadKind, ReadFault};
use crate::reading::names::{Names, operator_count, summed_count};
use crate::reading::tokens::Tokens;
use ct_mono::NoMemory;
use ct_ore::{Action, NameInfo, Role};
use ct_token::Symbol;
use std::alloc::Global;

/// How many names there may be.
const MOST_NAMES: usize = 6;

/// The most bytes of a name.
const LONGEST_NAME: usize = 32;

/// How many names may have operators.
const MOST_OPERATORS: usize = 4;

/// How many names may be summed.
const MOST_SUMMED: usize = 3;

/// The word that begins a name line.
#[derive(Clone, Copy)]
enum NameLine {
    Free,
    Sum,
    Int,
    Param,
}

/// The name lines.
#[tactic(auto, unfolding(crate::specs::Declarations::declarations))]
pub fn declarations(alloc: Global, tokens: &mut Tokens<'_>) -> Result<Names, ReadFault>
    ensures reads { ReadsBy (λ n. n.variables) (spec.declarations tokens.old) result tokens.new }
    ensures no_lets { IfOk result (λ n. n.lets ≡ []) }
{
    let names = name_lines(alloc, tokens)?;
    if names.variables().is_empty() {
        Err(tokens.fault(BadKind::Syntax))
    } else {
        Ok(names)
    }
}

fn name_lines(alloc: Global, tokens: &mut Tokens<'_>) -> Result<Names, ReadFault>
    ensures reads { ReadsBy (λ n. n.variables) (spec.declarations_from 6 [] tokens.old) result tokens.new }
    ensures no_lets { IfOk result (λ n. n.lets ≡ []) }
{
    let mut names = Names::new(alloc);
    for _turn in 0..MOST_NAMES {
        let Some(line) = name_line(tokens) else {
            return Ok(names);
        };
        let info = declaration(alloc, &names, tokens, line)?;
        names.add_variable(info)?;
    }
    match name_line(tokens) {
        None => Ok(names),
        Some(_) => Err(tokens.fault(BadKind::TooMany)),
    }
}

/// Which name line begins here.
#[tactic(auto, unfolding(crate::specs::Declarations::name_line))]
fn name_line(tokens: &Tokens<'_>) -> Option<NameLine>
    ensures { result ≡ spec.name_line tokens.now }
{
    if tokens.sees_word(b"free") {
        Some(NameLine::Free)
    } else if tokens.sees_word(b"sum") {
        Some(NameLine::Sum)
    } else if tokens.sees_word(b"int") {
        Some(NameLine::Int)
    } else if tokens.sees_word(b"param") {
        Some(NameLine::Param)
    } else {
        None
    }
}

/// A name line, after these names.
#[tactic(auto, unfolding(crate::specs::Declarations::declaration))]
fn declaration(
    alloc: Global,
    names: &Names,
    tokens: &mut Tokens<'_>,
    line: NameLine,
) -> Result<NameInfo, ReadFault>
    requires { names.now.lets ≡ [] }
    ensures reads { ReadsBy naming_of (spec.declaration line names.now.variables tokens.old) result tokens.new }
    ensures other { IfOk result (λ info. IsTrue (is_new (string_bytes info.text) names.now)) }
{
    if is_full(line, names.variables()) {
        return Err(tokens.fault(BadKind::TooMany));
    }
    tokens.skip();
    let text = new_name(alloc, names, tokens)?;
    let action = action(tokens, line)?;
    tokens.line_end()?;
    Ok(NameInfo {
        text,
        action,
        role: role(line),
    })
}

/// A name that is declared after these names.
#[tactic(auto, unfolding(crate::specs::Declarations::new_name))]
pub fn new_name(alloc: Global, names: &Names, tokens: &mut Tokens<'_>) -> Result<String, ReadFault>
    ensures reads { ReadsBy string_bytes (spec.new_name names.now tokens.old) result tokens.new }
    ensures other { IfOk result (λ text. IsTrue (is_new (string_bytes text) names.now)) }
{
    let Some(Symbol::Word) = tokens.peek() else {
        return Err(tokens.fault(BadKind::Syntax));
    };
    let text = tokens.spelling();
    if text.len() > LONGEST_NAME {
        return Err(tokens.fault(BadKind::NameTooLong));
    }
    if !names.is_new(text) {
        return Err(tokens.fault(BadKind::DuplicateName));
    }
    let text = text_of(alloc, text)?;
    tokens.skip();
    Ok(text)
}

fn text_of(alloc: Global, text: &[u8]) -> Result<String, NoMemory>
    requires { IsAscii text.now }
    ensures { IfOk result (λ t. string_bytes t ≡ text.now) }
{
    let bytes = Vec::from_slice(alloc, text)?;
    Ok(String::from_utf8(bytes).unwrap())
}

/// Whether these names leave no room for a name of this line.
#[tactic(auto, unfolding(crate::specs::Declarations::is_full))]
fn is_full(line: NameLine, found: &[NameInfo]) -> bool
    ensures { result ≡ spec.is_full line (namings_of found.now) }
{
    match line {
        NameLine::Free => operator_count(found) >= MOST_OPERATORS,
        NameLine::Sum | NameLine::Int => {
            operator_count(found) >= MOST_OPERATORS || summed_count(found) >= MOST_SUMMED
        }
        NameLine::Param => false,
    }
}

fn action(tokens: &mut Tokens<'_>, line: NameLine) -> Result<Action, ReadFault>
    ensures { ReadsBy action_of (spec.action_of_line line tokens.old) result tokens.new }
{
    match line {
        NameLine::Free => free_action(tokens),
        NameLine::Sum => Ok(Action::Shift),
        NameLine::Int => Ok(Action::Derive),
        NameLine::Param => Ok(Action::Still),
    }
}

#[tactic(auto, unfolding(crate::specs::Declarations::free_action))]
fn free_action(tokens: &mut Tokens<'_>) -> Result<Action, ReadFault>
    ensures { ReadsBy action_of (spec.free_action tokens.old) result tokens.new }
{
    if tokens.eat_word(b"shift") {
        Ok(Action::Shift)
    } else {
        tokens.expect_word(b"diff")?;
        Ok(Action::Derive)
    }
}

fn role(line: NameLine) -> Role
    ensures { result ≡ spec.role_of_line line }
{
    match line {
        NameLine::Free => Role::Free,
        NameLine::Sum | NameLine::Int => Role::Summed,
        NameLine::Param => Role::Param,
    }
}
