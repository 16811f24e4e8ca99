//! Laws of parts: what one object sees of a run.

ghost use Rattle.kmipa_parts.specs.Laws.{PartsArePlaced, RunProjects};

/// A run, looked at on one object, is a run of the parts of its calls on that object.
pub fn run_projects()
    ensures { RunProjects }
{}

/// The parts of calls are placed as the calls are.
pub fn parts_are_placed()
    ensures { PartsArePlaced }
{}
