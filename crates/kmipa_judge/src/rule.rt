//! Rules that a server may have.

ghost use Rattle.std.specs.Prelude.{◌≡◌, IfOk, [], string_bytes};
ghost use Rattle.kmipa_record.specs.Declarations.{declaration_of, nothing_declared};
ghost use Rattle.kmipa_judge.specs.Rules.{a_second_away, assuming, own_text, rule_text};

use kmipa_record::{Declaration, OwnAttribute, Settings};
use std::alloc::{AllocError, Global};

/// A rule that a server may have.
#[derive(Clone, Copy, PartialEq, Eq)]
pub enum Rule {
    /// The moments of its calls may be a second away from their Time Stamps.
    Tolerance,
    /// It may give an object this attribute at birth by itself.
    Own(OwnAttribute),
}

/// The rules that are tried, in the order in which they are told.
///
/// No allow line is among them. Where nothing is declared none explains anything: a success is impossible only where the table excludes it, which no line
/// frees; and a refusal is judged only by whether the object is there.
pub(crate) const RULES: [Rule; 7] = [
    Rule::Tolerance,
    Rule::Own(OwnAttribute::Name),
    Rule::Own(OwnAttribute::CryptographicAlgorithm),
    Rule::Own(OwnAttribute::CryptographicLength),
    Rule::Own(OwnAttribute::CryptographicUsageMask),
    Rule::Own(OwnAttribute::ActivationDate),
    Rule::Own(OwnAttribute::DeactivationDate),
];

/// The declaration that assumes nothing but this rule, beside these settings.
pub(crate) fn assuming(
    alloc: Global,
    settings: Settings,
    rule: Rule,
) -> Result<Declaration, AllocError>
    ensures { IfOk result (λ declaration. declaration_of declaration ≡ assuming settings rule) }
{
    match rule {
        Rule::Tolerance => {
            let own = Vec::new(alloc);
            Ok(assuming_own(alloc, a_second_away(settings), own))
        }
        Rule::Own(attribute) => {
            let own = Vec::from_slice(alloc, &[attribute])?;
            Ok(assuming_own(alloc, settings, own))
        }
    }
}

/// A declaration that assumes all of these rules, beside these settings.
pub(crate) fn assuming_all(alloc: Global, settings: Settings) -> Result<Declaration, AllocError>
    ensures { IfOk result (λ declaration. (declaration_of declaration).entries ≡ []) }
{
    let own = Vec::from_slice(
        alloc,
        &[
            OwnAttribute::Name,
            OwnAttribute::CryptographicAlgorithm,
            OwnAttribute::CryptographicLength,
            OwnAttribute::CryptographicUsageMask,
            OwnAttribute::ActivationDate,
            OwnAttribute::DeactivationDate,
        ],
    )?;
    Ok(assuming_own(alloc, a_second_away(settings), own))
}

/// The same settings, where moments may be a second away from Time Stamps.
fn a_second_away(settings: Settings) -> Settings
    ensures { result ≡ a_second_away settings }
{
    Settings {
        unique_names: settings.unique_names,
        unjudged: settings.unjudged,
        tolerance: 1,
        visibility: settings.visibility,
    }
}

/// The declaration that has these settings and own lines alone.
fn assuming_own(alloc: Global, settings: Settings, own: Vec<OwnAttribute>) -> Declaration
    ensures { declaration_of result ≡ record (nothing_declared settings) { own_attributes = own.items } }
{
    Declaration {
        settings,
        rows: Vec::new(alloc),
        allow_lines: Vec::new(alloc),
        own_attributes: own,
        entries: Vec::new(alloc),
        asides: Vec::new(alloc),
    }
}

/// A rule in the words of a file of rules.
pub(crate) fn rule_text(alloc: Global, rule: Rule) -> Result<String, AllocError>
    ensures { IfOk result (λ text. string_bytes text ≡ rule_text rule) }
{
    match rule {
        Rule::Tolerance => String::from_str(alloc, "tolerance 1"),
        Rule::Own(attribute) => own_rule_text(alloc, attribute),
    }
}

fn own_rule_text(alloc: Global, attribute: OwnAttribute) -> Result<String, AllocError>
    ensures { IfOk result (λ text. string_bytes text ≡ rule_text (Rule.Own attribute)) }
{
    let name = own_text(attribute);
    format!(in alloc; "own {name}")
}

fn own_text(attribute: OwnAttribute) -> &'static str
    ensures { result.now ≡ own_text attribute }
{
    match attribute {
        OwnAttribute::Name => "Name",
        OwnAttribute::CryptographicAlgorithm => "CryptographicAlgorithm",
        OwnAttribute::CryptographicLength => "CryptographicLength",
        OwnAttribute::CryptographicUsageMask => "CryptographicUsageMask",
        OwnAttribute::ActivationDate => "ActivationDate",
        OwnAttribute::DeactivationDate => "DeactivationDate",
    }
}
