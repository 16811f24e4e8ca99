//! How a run is told that has nothing of its own to say.

ghost use Rattle.std.specs.Prelude.{◌≡◌};
ghost use Rattle.kmipa_session.specs.Printing.{device_text, memory_text, voice_of};

use kmipa_jobs::Form;

/// Whether lines are printed, or an object.
#[derive(Clone, Copy, PartialEq, Eq)]
pub enum Voice {
    Lines,
    Object,
}

/// The voice of a form.
pub fn voice_of(form: Form) -> Voice
    ensures { result ≡ voice_of form }
{
    match form {
        Form::Lines | Form::Explained => Voice::Lines,
        Form::Json | Form::ExplainedJson => Voice::Object,
    }
}

/// What is printed where memory ran out.
pub fn memory_text(voice: Voice) -> &'static [u8]
    ensures { result.now ≡ memory_text voice }
{
    match voice {
        Voice::Lines => b"memory\n",
        Voice::Object => b"{\"auditor\":\"0.1.0\",\"verdict\":\"memory\"}\n",
    }
}

/// What is printed where a file can't be opened, read or written.
pub fn device_text(voice: Voice) -> &'static [u8]
    ensures { result.now ≡ device_text voice }
{
    match voice {
        Voice::Lines => b"device\n",
        Voice::Object => b"{\"auditor\":\"0.1.0\",\"verdict\":\"device\"}\n",
    }
}
