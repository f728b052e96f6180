// The `let` lines.
ghost use Rattle.std.specs.Prelude.{◌≡◌, [], length, string_bytes, Err, IfOk, IsTrue};
ghost use Rattle.ct_problem.specs.Input.{Reads, ReadsBy};
ghost use Rattle.ct_problem.specs.LetLines as spec;
ghost use Rattle.ct_problem.specs.Names.{is_new};
ghost use Rattle.ct_problem.specs.Draft.{definition_of};
ghost use Rattle.ct_problem.specs.ReadProblem.{definitions_of};

use crate::fault::{BadKind, ReadFault};
use crate::problem::LetForm;
use crate::reading::declarations::new_name;
use crate::reading::expressions::expression;
use crate::reading::lines::no_more;
use crate::reading::names::{Known, Names};
use crate::reading::tokens::Tokens;
use ct_expr::Expr;
use ct_token::Symbol;
use sqlite_items::Items;
use std::alloc::Global;

/// How many `let` lines there may be.
const MOST_LETS: usize = 8;

/// How many expressions a `gens` list may have.
const MOST_LISTED: usize = 16;

/// The word that says what a `let` line makes.
#[derive(Clone, Copy)]
enum LetWord {
    Gens,
    Plus,
    Product,
    Apply,
}

/// The name of a `let` line, and what stands for it.
#[derive(Drop)]
struct LetLine {
    text: String,
    form: LetForm,
}

/// The `let` lines, whose names are added to these.
pub fn let_lines(
    alloc: Global,
    names: &mut Names,
    tokens: &mut Tokens<'_>,
) -> Result<Items<LetForm>, ReadFault>
    requires { names.old.lets ≡ [] }
    ensures reads { ReadsBy (definitions_of names.new.lets) (spec.let_lines names.old.variables tokens.old) result tokens.new }
    ensures variables { IfOk result (λ _. names.new.variables ≡ names.old.variables) }
    ensures a_name_each { IfOk result (λ forms. length names.new.lets ≡ length forms) }
{
    let mut found = Items::new(alloc);
    for _turn in 0..MOST_LETS {
        if !tokens.eat_word(b"let") {
            return Ok(found);
        }
        let definition = definition(alloc, names, tokens)?;
        names.add_let(definition.text)?;
        found.push(definition.form)?;
    }
    no_more(tokens, b"let")?;
    Ok(found)
}

/// A `let` line behind its first word.
#[tactic(auto, unfolding(crate::specs::LetLines::definition))]
fn definition(alloc: Global, names: &Names, tokens: &mut Tokens<'_>) -> Result<LetLine, ReadFault>
    ensures reads { ReadsBy definition_of (spec.definition names.now tokens.old) result tokens.new }
    ensures other { IfOk result (λ l. IsTrue (is_new (string_bytes l.text) names.now)) }
{
    let text = new_name(alloc, names, tokens)?;
    tokens.expect(b'=')?;
    let form = let_form(alloc, names, tokens)?;
    tokens.line_end()?;
    Ok(LetLine { text, form })
}

#[tactic(auto, unfolding(crate::specs::LetLines::let_form))]
fn let_form(alloc: Global, names: &Names, tokens: &mut Tokens<'_>) -> Result<LetForm, ReadFault>
    ensures { Reads (spec.let_form names.now tokens.old) result tokens.new }
{
    let Some(word) = let_word(tokens) else {
        return Err(tokens.fault(BadKind::Syntax));
    };
    tokens.skip();
    form(alloc, names, tokens, word)
}

/// Which form begins here.
#[tactic(auto, unfolding(crate::specs::LetLines::let_word))]
fn let_word(tokens: &Tokens<'_>) -> Option<LetWord>
    ensures { result ≡ spec.let_word tokens.now }
{
    if tokens.sees_word(b"gens") {
        Some(LetWord::Gens)
    } else if tokens.sees_word(b"plus") {
        Some(LetWord::Plus)
    } else if tokens.sees_word(b"product") {
        Some(LetWord::Product)
    } else if tokens.sees_word(b"apply") {
        Some(LetWord::Apply)
    } else {
        None
    }
}

/// What stands behind the word.
fn form(
    alloc: Global,
    names: &Names,
    tokens: &mut Tokens<'_>,
    word: LetWord,
) -> Result<LetForm, ReadFault>
    ensures { Reads (spec.form_by names.now word tokens.old) result tokens.new }
{
    match word {
        LetWord::Gens => Ok(LetForm::Gens(listed(alloc, names, tokens)?)),
        LetWord::Plus => {
            let (first, second) = two_lists(names, tokens)?;
            Ok(LetForm::Plus(first, second))
        }
        LetWord::Product => {
            let (first, second) = two_lists(names, tokens)?;
            Ok(LetForm::Product(first, second))
        }
        LetWord::Apply => applied(alloc, names, tokens),
    }
}

/// The expressions of a `gens` list.
fn listed(alloc: Global, names: &Names, tokens: &mut Tokens<'_>) -> Result<Items<Expr>, ReadFault>
    ensures { Reads (spec.listed_from names.now 16 [] tokens.old) result tokens.new }
{
    let mut found = Items::new(alloc);
    for _turn in 0..MOST_LISTED {
        found.push(expression(alloc, names, tokens, true)?)?;
        if !tokens.eat(b';') {
            return Ok(found);
        }
    }
    Err(one_too_many(tokens))
}

/// The fault of one more expression than there may be.
#[tactic(auto, unfolding(crate::specs::LetLines::one_too_many))]
fn one_too_many(tokens: &Tokens<'_>) -> ReadFault
    ensures { Reads (spec.one_too_many tokens.now) (Err result) tokens.now }
{
    if begins_expression(tokens.peek()) {
        tokens.fault(BadKind::TooMany)
    } else {
        tokens.fault(BadKind::Syntax)
    }
}

fn begins_expression(symbol: Option<Symbol>) -> bool
    ensures { result ≡ spec.begins_expression symbol }
{
    matches!(
        symbol,
        Some(Symbol::Number | Symbol::Word | Symbol::Sign(b'-' | b'('))
    )
}

#[tactic(auto, unfolding(crate::specs::LetLines::two_lists))]
fn two_lists(names: &Names, tokens: &mut Tokens<'_>) -> Result<(u8, u8), ReadFault>
    ensures { Reads (spec.two_lists names.now tokens.old) result tokens.new }
{
    let first = list_name(names, tokens)?;
    let second = list_name(names, tokens)?;
    Ok((first, second))
}

/// The number of the `let` line that the next token names.
#[tactic(auto, unfolding(crate::specs::LetLines::list_name))]
pub fn list_name(names: &Names, tokens: &mut Tokens<'_>) -> Result<u8, ReadFault>
    ensures { Reads (spec.list_name names.now tokens.old) result tokens.new }
{
    let Some(Symbol::Word) = tokens.peek() else {
        return Err(tokens.fault(BadKind::Syntax));
    };
    match names.known(tokens.spelling()) {
        Known::Let(at) => {
            tokens.skip();
            Ok(at as u8)
        }
        Known::Variable(_) => Err(tokens.fault(BadKind::WrongKind)),
        Known::Unknown => Err(tokens.fault(BadKind::UnknownName)),
    }
}

#[tactic(auto, unfolding(crate::specs::LetLines::applied))]
fn applied(alloc: Global, names: &Names, tokens: &mut Tokens<'_>) -> Result<LetForm, ReadFault>
    ensures { Reads (spec.applied names.now tokens.old) result tokens.new }
{
    let at = list_name(names, tokens)?;
    tokens.expect(b':')?;
    let x = expression(alloc, names, tokens, true)?;
    Ok(LetForm::Apply(at, x))
}
