//! Which rules can have to do with what was found.

use crate::rule::Rule;
use kmipa_findings::Finding;
use kmipa_ops::Why;

/// Whether there are findings, and a rule can have to do with each of them.
pub(crate) fn is_about_all(rule: Rule, findings: &[Finding]) -> bool {
    'findings: for finding in findings {
        if !is_about(rule, finding.refused.why) {
            return false;
        }
    }
    !findings.is_empty()
}

/// Whether an answer may be impossible for this where a server has a rule that isn't declared.
fn is_about(rule: Rule, why: Why) -> bool {
    match rule {
        Rule::Tolerance => is_about_moments(why),
        Rule::Own(_) => is_about_attributes(why),
    }
}

/// Whether it depends on the moment of a call, or on the order of calls.
fn is_about_moments(why: Why) -> bool {
    match why {
        Why::StampRunsBack
        | Why::WrongState
        | Why::AttributeDiffers
        | Why::AttributeMissing
        | Why::ListedWrongly
        | Why::ListedTooFew
        | Why::ReasonUnfounded => true,
        _ => false,
    }
}

/// Whether it depends on what an object has, or on its state.
fn is_about_attributes(why: Why) -> bool {
    match why {
        Why::WrongState
        | Why::LengthImpossible
        | Why::AttributeDiffers
        | Why::ListedWrongly
        | Why::ListedTooFew => true,
        _ => false,
    }
}
