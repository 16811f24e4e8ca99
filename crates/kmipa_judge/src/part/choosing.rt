//! Which turns of a witness are kept, to explain a finding.

use super::role::{Role, role_of};
use super::wanting::Wanted;
use crate::clients::counts_for;
use kmipa_check::FirstPlaces;
use kmipa_findings::Finding;
use kmipa_msgs::{Unjudged, Visibility};
use kmipa_ops::Why;
use kmipa_record::{Declaration, Transcript, Turn};
use kmipa_turns::{Recorded, recorded_calls};
use std::alloc::{AllocError, Global};
use std::collections::BTreeSet;

/// So often is it looked for more objects that have to be told of.
const ROUNDS: usize = 8;

/// So many turns are kept at most.
const MOST_TURNS: usize = 2_000;

/// What is known of the calls of a witness, and of identifiers.
#[derive(Drop)]
pub(crate) struct Advice<'a> {
    calls: Vec<Recorded<'a>>,
    places: FirstPlaces,
    roles: Vec<Role<'a>>,
    declared: BTreeSet<&'a str>,
    aside: BTreeSet<&'a str>,
    /// Whether all that aren't declared are set aside at the start.
    rest: bool,
    /// Whether no object is hidden from a client.
    sees_all: bool,
}

impl<'a> Advice<'a> {
    /// Of these turns, by a declaration; none where a turn names no call.
    pub(crate) fn of(
        alloc: Global,
        transcript: &'a Transcript,
        declaration: &'a Declaration,
        turns: &'a [Turn],
    ) -> Result<Option<Advice<'a>>, AllocError> {
        let calls = recorded_calls(alloc, transcript)?;
        let places = FirstPlaces::of(alloc, &calls)?;
        let Some(roles) = roles_of(alloc, &calls, &places, turns)? else {
            return Ok(None);
        };
        let presumed = declaration.settings.visibility != Visibility::Everyone;
        let mut advice = Advice {
            calls,
            places,
            roles,
            declared: BTreeSet::new(alloc),
            aside: BTreeSet::new(alloc),
            rest: declaration.settings.unjudged == Unjudged::Unknown,
            sees_all: counts_for(presumed, &transcript.marks),
        };
        advice.take_declared(declaration)?;
        Ok(Some(advice))
    }

    fn take_declared(&mut self, declaration: &'a Declaration) -> Result<(), AllocError> {
        'entries: for entry in &declaration.entries {
            let _is_new = self.declared.insert(entry.id.as_str())?;
        }
        'asides: for id in &declaration.asides {
            let _is_new = self.aside.insert(id.as_str())?;
        }
        Ok(())
    }

    /// Which turns are kept to explain a finding: those on the objects of which its call speaks, where all about these is judged up to it; and of those
    /// behind it the ones whose calls began before its call ended. None where it can't be explained so.
    pub(crate) fn kept_for(
        &self,
        alloc: Global,
        finding: &'a Finding,
    ) -> Result<Option<Vec<bool>>, AllocError> {
        let tried = role_of(alloc, &self.calls, &self.places, &finding.tried)?;
        let Some(own) = tried else {
            return Ok(None);
        };
        if !own.is_judged {
            return Ok(None);
        }
        let Some(mut wanted) = self.wanted_by(alloc, finding, &own)? else {
            return Ok(None);
        };
        let Some(choice) = self.choose(alloc, finding.place, &mut wanted)? else {
            return Ok(None);
        };
        if !self.are_known(&own, &choice.born) {
            return Ok(None);
        }
        let mut kept = choice.kept;
        if finding.refused.why == Why::StampRunsBack
            && !self.keep_before(&mut kept, finding.place)
        {
            return Ok(None);
        }
        Ok(self.with_behind(kept, finding.place, &own))
    }

    /// All turns. None where some object may be hidden of which the reason of a finding speaks.
    pub(crate) fn all_for(
        &self,
        alloc: Global,
        finding: &Finding,
    ) -> Result<Option<Vec<bool>>, AllocError> {
        match finding.refused.why {
            Why::NameTaken | Why::ListedTooFew if !self.sees_all => Ok(None),
            _ => Ok(Some(truths(alloc, true, self.roles.len())?)),
        }
    }

    /// Of which objects it has to be told: of those that the call of a finding names, or all where the reason speaks of all. None where some may be hidden
    /// that it speaks of.
    fn wanted_by(
        &self,
        alloc: Global,
        finding: &Finding,
        own: &Role<'a>,
    ) -> Result<Option<Wanted<'a>>, AllocError> {
        match finding.refused.why {
            Why::NameTaken | Why::ListedTooFew if !self.sees_all => Ok(None),
            Why::NameTaken | Why::ListedTooFew | Why::ListedWrongly => Ok(Some(Wanted::all(alloc))),
            Why::StampRunsBack => match self.before(finding.place) {
                Some(before) => Ok(Some(Wanted::of(alloc, before)?)),
                None => Ok(None),
            },
            _ => Ok(Some(Wanted::of(alloc, own)?)),
        }
    }

    /// The turn before one.
    fn before(&self, place: usize) -> Option<&Role<'a>> {
        self.roles.get(place.checked_sub(1)?)
    }

    /// Keeps the turn before one, where it is judged. Whether it is kept.
    fn keep_before(&self, kept: &mut [bool], place: usize) -> bool {
        match self.before(place) {
            Some(before) if before.is_judged => {
                let at = place.saturating_sub(1);
                if at < kept.len() {
                    kept[at] = true;
                }
                true
            }
            _ => false,
        }
    }

    /// The turns ahead of a place on these objects, and on all others that their calls name. None where something about one isn't judged, or they are too
    /// many.
    fn choose(
        &self,
        alloc: Global,
        place: usize,
        wanted: &mut Wanted<'a>,
    ) -> Result<Option<Choice<'a>>, AllocError> {
        'rounds: for _ in 0..ROUNDS {
            let mut choice = Choice::none(alloc, self.roles.len())?;
            'ahead: for at in 0..place.min(self.roles.len()) {
                if !self.take(&mut choice, at, wanted)? {
                    return Ok(None);
                }
            }
            if choice.count > MOST_TURNS {
                return Ok(None);
            }
            if !choice.is_wider {
                return Ok(Some(choice));
            }
        }
        Ok(None)
    }

    /// Keeps a turn where it is on these objects. Whether all that it may have done to them is judged.
    fn take(
        &self,
        choice: &mut Choice<'a>,
        at: usize,
        wanted: &mut Wanted<'a>,
    ) -> Result<bool, AllocError> {
        let Some(role) = self.roles.get(at) else {
            return Ok(true);
        };
        if role.is_vast {
            return Ok(false);
        }
        if !wanted.wants(role) {
            return Ok(true);
        }
        if role.is_judged && role.acts && self.are_known(role, &choice.born) {
            choice.keep(at, role)?;
            if wanted.add(role)? {
                choice.is_wider = true;
            }
            return Ok(true);
        }
        Ok(!role.changes || self.are_strangers(role, &choice.born))
    }

    /// Whether none of the objects that a call names is set aside, where these were born ahead of it.
    fn are_known(&self, role: &Role<'a>, born: &BTreeSet<&'a str>) -> bool {
        'names: for name in &role.names {
            if self.aside.contains(name) {
                return false;
            }
            if self.rest && !role.born.contains(name) && !self.is_there(name, born) {
                return false;
            }
        }
        true
    }

    /// Whether a call makes no object, and names none that is there, where these were born ahead of it.
    fn are_strangers(&self, role: &Role<'a>, born: &BTreeSet<&'a str>) -> bool {
        'names: for name in &role.names {
            if self.is_there(name, born) {
                return false;
            }
        }
        role.born.is_empty()
    }

    fn is_there(&self, id: &&'a str, born: &BTreeSet<&'a str>) -> bool {
        self.declared.contains(id) || born.contains(id)
    }

    /// The same turns, that at this place, and those behind it whose calls overlap its call. None where they are too many.
    fn with_behind(&self, kept: Vec<bool>, place: usize, own: &Role) -> Option<Vec<bool>> {
        let mut kept = kept;
        let mut count = 0usize;
        'turns: for (at, role) in self.roles.iter().enumerate() {
            let is_behind = at > place && role.is_judged && begins_before(role, own.end);
            if !is_behind && at != place {
                continue;
            }
            if at < kept.len() {
                kept[at] = true;
                count = count.saturating_add(1);
            }
        }
        if count > MOST_TURNS { None } else { Some(kept) }
    }
}

/// Whether a call began before this end mark, where there is one.
fn begins_before(role: &Role, end: Option<usize>) -> bool {
    match end {
        Some(end) => role.begin < end,
        None => true,
    }
}

fn roles_of<'a>(
    alloc: Global,
    calls: &[Recorded<'a>],
    places: &FirstPlaces,
    turns: &'a [Turn],
) -> Result<Option<Vec<Role<'a>>>, AllocError> {
    let mut roles = Vec::with_capacity(alloc, turns.len())?;
    'turns: for turn in turns {
        match role_of(alloc, calls, places, turn)? {
            Some(role) => roles.push(role)?,
            None => return Ok(None),
        }
    }
    Ok(Some(roles))
}

/// Which turns are kept, by a truth for each; how many; which objects they make; and whether it has to be told of more objects than before.
#[derive(Drop)]
struct Choice<'a> {
    kept: Vec<bool>,
    count: usize,
    born: BTreeSet<&'a str>,
    is_wider: bool,
}

impl<'a> Choice<'a> {
    /// No turn of so many.
    fn none(alloc: Global, turns: usize) -> Result<Choice<'a>, AllocError> {
        Ok(Choice {
            kept: truths(alloc, false, turns)?,
            count: 0,
            born: BTreeSet::new(alloc),
            is_wider: false,
        })
    }

    fn keep(&mut self, at: usize, role: &Role<'a>) -> Result<(), AllocError> {
        if at < self.kept.len() {
            self.kept[at] = true;
            self.count = self.count.saturating_add(1);
        }
        'born: for id in &role.born {
            let _is_new = self.born.insert(*id)?;
        }
        Ok(())
    }
}

/// The same truth so often.
fn truths(alloc: Global, truth: bool, count: usize) -> Result<Vec<bool>, AllocError> {
    let mut truths = Vec::with_capacity(alloc, count)?;
    'truths: for _ in 0..count {
        truths.push(truth)?;
    }
    Ok(truths)
}
