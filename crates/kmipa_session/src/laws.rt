//! Laws of what is said of seals, over the definitions alone.

ghost use Rattle.std.specs.Prelude.{◌≡◌, ◌++◌, ℕ, List, Option};
ghost use Rattle.kmipa_record.specs.declared.head.Head.{Head};
ghost use Rattle.kmipa_record.specs.declared.torn.Torn.{Torn};
ghost use Rattle.kmipa_jobs.specs.declared.status.Status.{Status};
ghost use Rattle.kmipa_jobs.specs.declared.status.Status.TheVariants.{Done};
ghost use Rattle.kmipa_session.specs.Sealing.{IsKnownAsExpected, KnownAsTold, KnowsTold, SaysSeals, sealed_line};
ghost use Rattle.kmipa_session.specs.declared.voice.Voice.{Voice};

/// Where status 0 is said of a transcript, the run ended with it, and behind the run's lines stands the line of a head that is the expected one,
/// if one is, and up to which the bytes that came are sealed, of a torn transcript without the close behind them; or they bear no seals.
pub fn done_tells_its_head()
    ensures { (voice : Voice) (bytes told lines : List ℕ) (expected : Option (List ℕ)) (torn : Option Torn) (head : Option Head)
        (ran : Status) → KnowsTold torn bytes ran head → SaysSeals voice expected torn head ran told Done lines
        → (ran ≡ Done) × KnownAsTold torn bytes head × IsKnownAsExpected expected head
        × (lines ≡ told ++ sealed_line voice torn head) }
{}
