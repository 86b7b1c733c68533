//! What the rule sees of a character.
ghost use Rattle.std.specs.Prelude.{◌≡◌};
ghost use Rattle.ucd_script.specs.Script.{script_eq};
ghost use Rattle.gateway_labels.specs.Classes.{beyond_ascii, by_category, class_of, control, is_capital_behind_small};
ghost use Rattle.gateway_labels.specs.Classes.{is_odd, is_symbol, meets, merged, mixes, script_of};

use ucd_category::GeneralCategory;
use ucd_script::Script;

/// Whether a letter is a small or a capital one, where its script tells them apart.
#[derive(Clone, Copy, Debug, PartialEq, Eq, Drop)]
pub enum Case {
    Small,
    Capital,
    Neither,
}

/// What the rule sees of a character.
#[derive(Clone, Copy, Debug, PartialEq, Eq, Drop)]
pub enum Class {
    /// Of no account: spaces, punctuation, accents by themselves, and digits and symbols of ASCII.
    Plain,
    /// A number that isn't ASCII.
    Number,
    /// A symbol that isn't ASCII.
    Symbol,
    /// What texts hardly have: controls but for tabs and line ends, private use, and what no character has.
    Odd,
    /// A letter of a script.
    Letter(Case, Script),
}

impl Class {
    /// The class of a character.
    #[tactic(auto, unfolding(crate::specs::Classes::class_of))]
    pub fn of(c: char) -> Self
        ensures { result ≡ class_of c }
    {
        by_category(c, GeneralCategory::for_char(c))
    }

    /// Whether it is strange that a character of the second class stands right behind one of the first: letters of two
    /// scripts, a capital behind a small letter, a number or a symbol behind a letter, a letter behind a symbol.
    pub fn meets(self, next: Class) -> bool
        ensures { result ≡ meets self next }
    {
        match (self, next) {
            (Class::Letter(case, script), Class::Letter(next_case, next_script)) => {
                is_capital_behind_small(case, next_case) || mixes(script, next_script)
            }
            (Class::Letter(..), Class::Number | Class::Symbol)
            | (Class::Symbol, Class::Letter(..)) => true,
            _ => false,
        }
    }

    /// Whether texts hardly have it.
    pub fn is_odd(self) -> bool
        ensures { result ≡ is_odd self }
    {
        matches!(self, Class::Odd)
    }

    /// Whether it is a symbol.
    pub fn is_symbol(self) -> bool
        ensures { result ≡ is_symbol self }
    {
        matches!(self, Class::Symbol)
    }
}

fn is_capital_behind_small(case: Case, next: Case) -> bool
    ensures { result ≡ is_capital_behind_small case next }
{
    matches!((case, next), (Case::Small, Case::Capital))
}

// Whether a word hardly has letters of both. The letters of no script in particular stand beside any.
fn mixes(one: Script, other: Script) -> bool
    ensures { result ≡ mixes one other }
{
    !are_same(one, other) && !are_same(one, Script::Common) && !are_same(other, Script::Common)
}

#[tactic(auto, using(crate::proofs::Scripts::same_script))]
fn are_same(one: Script, other: Script) -> bool
    ensures { result ≡ script_eq one other }
{
    one == other
}

// The class of a character of this general category.
#[tactic(auto, unfolding(crate::specs::Classes::by_category))]
fn by_category(c: char, category: GeneralCategory) -> Class
    ensures { result ≡ by_category c category }
{
    match category {
        GeneralCategory::LowercaseLetter => Class::Letter(Case::Small, script_of(c)),
        GeneralCategory::UppercaseLetter => Class::Letter(Case::Capital, script_of(c)),
        GeneralCategory::TitlecaseLetter
        | GeneralCategory::ModifierLetter
        | GeneralCategory::OtherLetter => Class::Letter(Case::Neither, script_of(c)),
        GeneralCategory::DecimalNumber
        | GeneralCategory::LetterNumber
        | GeneralCategory::OtherNumber => beyond_ascii(c, Class::Number),
        GeneralCategory::MathSymbol
        | GeneralCategory::CurrencySymbol
        | GeneralCategory::ModifierSymbol
        | GeneralCategory::OtherSymbol => beyond_ascii(c, Class::Symbol),
        GeneralCategory::PrivateUse | GeneralCategory::Unassigned => Class::Odd,
        GeneralCategory::Control => control(c),
        _ => Class::Plain,
    }
}

// The class, or for ASCII the one of no account.
fn beyond_ascii(c: char, class: Class) -> Class
    ensures { result ≡ beyond_ascii c class }
{
    if c < '\u{80}' { Class::Plain } else { class }
}

// The class of a control.
fn control(c: char) -> Class
    ensures { result ≡ control c }
{
    if c == '\t' || c == '\n' || c == '\r' {
        Class::Plain
    } else {
        Class::Odd
    }
}

// The script of a letter. Those that Japanese mixes are one, and the wide letters of Latin are among them.
fn script_of(c: char) -> Script
    ensures { result ≡ script_of c }
{
    if '\u{FF21}' <= c && c <= '\u{FF5A}' {
        return Script::Han;
    }
    merged(Script::for_char(c))
}

#[tactic(auto, unfolding(crate::specs::Classes::merged))]
fn merged(script: Script) -> Script
    ensures { result ≡ merged script }
{
    match script {
        Script::Hiragana | Script::Katakana => Script::Han,
        script => script,
    }
}
