//! The two sides of a call that can be read, taken apart and put together again.

ghost use Rattle.std.specs.Prelude.{◌≡◌, IfOk, map, option_map};
ghost use Rattle.kmipa_msgs.specs.Messages.{answer_of, ask_of};
ghost use Rattle.kmipa_places.specs.Places.{place_of};
ghost use Rattle.kmipa_msgs.specs.declared.response.Status.TheVariants.{Failed};
ghost use Rattle.kmipa_bundle.specs.Shapes.{some_ask, with_status};
ghost use Rattle.kmipa_turns.specs.Parting.{joined, joined_at};

use kmipa_msgs::{Answer, Ask, Asked, Status};
use kmipa_places::Place;
use std::alloc::{AllocError, Global};

/// What was asked and what was answered at the places of a call, and those of the places that are passed.
#[derive(Drop)]
pub struct Sides<'a> {
    /// What was asked; nothing at a place that is passed.
    pub asks: Vec<Ask<'a>>,
    /// What was answered; a failure at a place that is passed.
    pub answers: Vec<Answer<'a>>,
    /// The place itself where it is passed.
    pub kept: Vec<Option<Place<'a>>>,
}

impl<'a> Sides<'a> {
    ghost use Rattle.std.specs.Prelude.{IfOk, OnOk, map, option_map};
    ghost use Rattle.kmipa_msgs.specs.Messages.{answer_of, ask_of};
    ghost use Rattle.kmipa_places.specs.Places.{place_of};
    ghost use Rattle.kmipa_turns.specs.Parting.{AreSides, Gains, GainsPlace, sides_of};

    /// The sides of these places.
    pub fn of(alloc: Global, places: Vec<Place<'a>>) -> Result<Sides<'a>, AllocError>
        ensures { IfOk result (λ sides. AreSides (map place_of places.entry.items) (sides_of sides)) }
    {
        let mut sides = Sides {
            asks: Vec::new(alloc),
            answers: Vec::new(alloc),
            kept: Vec::new(alloc),
        };
        'places: for place in places {
            sides.add(place)?;
        }
        Ok(sides)
    }

    /// One place more.
    fn add(&mut self, place: Place<'a>) -> Result<(), AllocError>
        ensures { OnOk result (GainsPlace (sides_of self.old) (place_of place.entry) (sides_of self.new)) }
    {
        match place {
            Place::Judged(ask, answer) => self.put(ask, answer, None),
            passed => self.put(some_ask(), some_failure(), Some(passed)),
        }
    }

    fn put(
        &mut self,
        ask: Ask<'a>,
        answer: Answer<'a>,
        kept: Option<Place<'a>>,
    ) -> Result<(), AllocError>
        ensures { OnOk result (Gains (sides_of self.old) (ask_of ask.entry) (answer_of answer.entry)
            (option_map place_of kept.entry) (sides_of self.new)) }
    {
        self.asks.push(ask)?;
        self.answers.push(answer)?;
        self.kept.push(kept)?;
        Ok(())
    }
}

/// An item of which nothing is known.
fn some_ask() -> Ask<'static>
    ensures { ask_of result ≡ some_ask }
{
    Ask {
        batch_id: None,
        asked: Asked::Idle(0),
    }
}

/// An answer of which nothing is known but that it failed.
fn some_failure() -> Answer<'static>
    ensures { answer_of result ≡ with_status Failed }
{
    Answer {
        operation: None,
        batch_id: None,
        status: Status::Failed,
        reason: None,
        payload: None,
    }
}

/// The places with these asks and answers, where they are judged.
pub fn put_together<'a>(
    alloc: Global,
    kept: Vec<Option<Place<'a>>>,
    asks: Vec<Ask<'a>>,
    answers: Vec<Answer<'a>>,
) -> Result<Vec<Place<'a>>, AllocError>
    ensures { IfOk result (λ places. map place_of places.items
        ≡ joined (map (option_map place_of) kept.entry.items) (map ask_of asks.entry.items)
        (map answer_of answers.entry.items)) }
{
    let mut places = Vec::with_capacity(alloc, kept.len())?;
    let mut asks = asks.into_iter();
    let mut answers = answers.into_iter();
    'places: for place in kept {
        let Some(ask) = asks.next() else {
            return Ok(places);
        };
        let Some(answer) = answers.next() else {
            return Ok(places);
        };
        places.push(joined_at(place, ask, answer))?;
    }
    Ok(places)
}

/// A place that is passed, or else the judged one with this ask and this answer.
fn joined_at<'a>(kept: Option<Place<'a>>, ask: Ask<'a>, answer: Answer<'a>) -> Place<'a>
    ensures { place_of result ≡ joined_at (option_map place_of kept.entry) (ask_of ask.entry) (answer_of answer.entry) }
{
    match kept {
        Some(passed) => passed,
        None => Place::Judged(ask, answer),
    }
}
