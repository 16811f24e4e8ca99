//! Laws of the definitions.

ghost use Rattle.std.specs.Prelude.{◌≡◌, ℤ, List, Option};
ghost use Rattle.kmipa_ttlv.specs.Tree.{Tree};
ghost use Rattle.kmipa_places.specs.Calls.{CallOf, IsCall};

/// Two messages are one call at most.
pub fn one_call()
    ensures { (request response : Option Tree) (asides : List ℤ) (c d : CallOf) → IsCall request response asides c
        → IsCall request response asides d → c ≡ d }
{}

/// And they are one.
pub fn some_call()
    ensures { (request response : Option Tree) (asides : List ℤ) → (c : CallOf) × IsCall request response asides c }
{}
