// The names that stand in a text.
ghost use Rattle.std.specs.Prelude.{◌≡◌, ◌<◌, length, count_by, map, slice_get, string_bytes, IfOk, IsTrue, Some, []};
ghost use Rattle.ct_ore.specs.Naming.{action_of, has_operator, naming_of, namings_of, IsAlgebra, TextsDiffer};
ghost use Rattle.ct_problem.specs.Cursor.{known_at, no_names, with_let, with_variable, IsPlaceIn};
ghost use Rattle.ct_problem.specs.Declarations.{declared};
ghost use Rattle.ct_problem.specs.Names as spec;

use crate::reading::name_table::NameTable;
use ct_mono::NoMemory;
use ct_ore::{Action, NameInfo, Role};
use sqlite_items::Items;
use std::alloc::Global;
use std::marker::Model;

/// What letters name: a declared name or a `let` line, by its number, or nothing.
#[derive(Clone, Copy, Debug, PartialEq, Eq)]
pub enum Known {
    Variable(usize),
    Let(usize),
    Unknown,
}

/// The declared names, at most six, and the names of `let` lines, at most eight.
#[derive(Drop)]
pub struct Names {
    variables: Vec<NameInfo>,
    lets: Vec<String>,
    /// The texts of all, those of declared names first.
    texts: NameTable,
}

impl Model for Names {
    ghost use Rattle.ct_problem.specs.Cursor.{names_of, AreNames};
    ghost use Rattle.ct_problem.specs.Names as spec;

    ghost Value = { spec.Names };

    ghost view = { names_of };

    ghost invariant = { λ n. AreNames (names_of n) n.texts };
}

impl Names {
    pub fn new(alloc: Global) -> Names
        ensures { result ≡ no_names }
    {
        Names {
            variables: Vec::new(alloc),
            lets: Vec::new(alloc),
            texts: NameTable::new(alloc),
        }
    }

    /// The names of an algebra, and no `let` line.
    pub fn of(alloc: Global, variables: Vec<NameInfo>) -> Result<Names, NoMemory>
        requires { IsAlgebra (namings_of variables.items) }
        ensures { IfOk result (λ n. n ≡ declared (namings_of variables.items)) }
    {
        let texts = texts_of(alloc, variables.as_slice())?;
        Ok(Names {
            variables,
            lets: Vec::new(alloc),
            texts,
        })
    }

    /// What letters name.
    pub fn known(&self, text: &[u8]) -> Known
        ensures value { result ≡ spec.known text.now self.now }
        ensures within { IsPlaceIn self.now result }
    {
        known_at(self.variables.len(), self.texts.place_of(text))
    }

    /// Whether a text may be declared after these names.
    #[tactic(auto, unfolding(crate::specs::Names::is_new))]
    pub fn is_new(&self, text: &[u8]) -> bool
        ensures { result ≡ spec.is_new text.now self.now }
    {
        !is_letter_of_symbol(text) && matches!(self.known(text), Known::Unknown)
    }

    /// One more declared name, before all `let` lines.
    pub fn add_variable(&mut self, info: NameInfo) -> Result<(), NoMemory>
        requires few { length self.old.variables < 6 }
        requires first { self.old.lets ≡ [] }
        requires other { IsTrue (spec.is_new (string_bytes info.text) self.old) }
        ensures { IfOk result (λ _. self.new ≡ with_variable self.old (naming_of info)) }
    {
        // First the room, so that the table keeps to the list where memory is short.
        self.variables.reserve(1)?;
        self.texts.add(info.text.as_bytes())?;
        self.variables.push(info)?;
        Ok(())
    }

    /// The name of one more `let` line.
    pub fn add_let(&mut self, text: String) -> Result<(), NoMemory>
        requires few { length self.old.lets < 8 }
        requires other { IsTrue (spec.is_new (string_bytes text) self.old) }
        ensures { IfOk result (λ _. self.new ≡ with_let self.old (string_bytes text)) }
    {
        self.lets.reserve(1)?;
        self.texts.add(text.as_bytes())?;
        self.lets.push(text)?;
        Ok(())
    }

    /// The declared names.
    pub fn variables(&self) -> &[NameInfo]
        ensures { namings_of result.now ≡ self.now.variables }
    {
        self.variables.as_slice()
    }

    /// The declared name with a number.
    pub fn variable(&self, at: usize) -> &NameInfo
        requires { at < length self.now.variables }
        ensures { slice_get self.now.variables at ≡ Some (naming_of result.now) }
    {
        &self.variables[at]
    }

    /// Whether the declared name with a number has this action.
    pub fn acts_as(&self, at: usize, action: Action) -> bool
        requires { at < length self.now.variables }
        ensures { result ≡ spec.acts_as (action_of action) (slice_get self.now.variables at) }
    {
        same_action(self.variable(at).action, action)
    }

    /// The declared names, and those of `let` lines.
    pub fn into_parts(self) -> (Vec<NameInfo>, Vec<String>)
        ensures variables { namings_of result.0.items ≡ self.variables }
        ensures lets { map string_bytes result.1.items ≡ self.lets }
    {
        let Names {
            variables,
            lets,
            ..
        } = self;
        (variables, lets)
    }
}

/// A table of the texts of these names, which differ.
fn texts_of(alloc: Global, names: &[NameInfo]) -> Result<NameTable, NoMemory>
    requires { TextsDiffer (namings_of names.now) }
    ensures { IfOk result (λ t. t ≡ map (λ info. string_bytes info.text) names.now) }
{
    let mut texts = NameTable::new(alloc);
    for info in names {
        texts.add(info.text.as_bytes())?;
    }
    Ok(texts)
}

/// The name at this place behind so many declared names.
fn known_at(declared: usize, place: Option<usize>) -> Known
    ensures { result ≡ known_at declared place }
{
    match place {
        Some(at) if at < declared => Known::Variable(at),
        Some(at) => Known::Let(at - declared),
        None => Known::Unknown,
    }
}

fn is_letter_of_symbol(text: &[u8]) -> bool
    ensures { result ≡ spec.is_letter_of_symbol text.now }
{
    text == b"S".as_slice() || text == b"D".as_slice()
}

fn same_action(a: Action, b: Action) -> bool
    ensures { result ≡ spec.same_action (action_of a) (action_of b) }
{
    matches!(
        (a, b),
        (Action::Shift, Action::Shift)
            | (Action::Derive, Action::Derive)
            | (Action::Still, Action::Still)
    )
}

/// How many of these names have operators.
pub fn operator_count(names: &[NameInfo]) -> usize
    ensures { result ≡ count_by has_operator (namings_of names.now) }
{
    let mut count = 0;
    for info in names {
        if !matches!(info.action, Action::Still) {
            count += 1;
        }
    }
    count
}

/// How many of these names are summed.
pub fn summed_count(names: &[NameInfo]) -> usize
    ensures { result ≡ length (spec.summed_texts (namings_of names.now)) }
{
    let mut count = 0;
    for info in names {
        if matches!(info.role, Role::Summed) {
            count += 1;
        }
    }
    count
}

/// The texts of the summed ones of these names, in order.
pub fn summed_texts(alloc: Global, names: &[NameInfo]) -> Result<Items<Items<u8>>, NoMemory>
    ensures { IfOk result (λ texts. texts ≡ spec.summed_texts (namings_of names.now)) }
{
    let mut texts = Items::new(alloc);
    for info in names {
        if matches!(info.role, Role::Summed) {
            texts.push(Items::from_slice(alloc, info.text.as_bytes())?)?;
        }
    }
    Ok(texts)
}
