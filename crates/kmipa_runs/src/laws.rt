//! Laws of what is reported of inputs, over the definitions alone.

ghost use Rattle.std.specs.Prelude.{◌≡◌, ◌⊎◌, ℕ, List, Bool};
ghost use Rattle.kmipa_ttlv.specs.Items.{AreItems};
ghost use Rattle.kmipa_ttlv.specs.Tree.{Tree};
ghost use Rattle.kmipa_ttlv.specs.declared.fault.FaultKind.{FaultKind};
ghost use Rattle.kmipa_ttlv.specs.declared.fault.TtlvFault.{TtlvFault};
ghost use Rattle.kmipa_runs.specs.Inputs.{TellsFirst};

/// Of bytes that are items no fault is reported but that the input is failed, or that memory ran out.
pub fn items_have_no_fault()
    ensures { (bytes : List ℕ) (items : List Tree) (failed : Bool) (f : TtlvFault) → AreItems items bytes
        → TellsFirst bytes failed f
        → (f.kind ≡ FaultKind.Device) ⊎ (f.kind ≡ FaultKind.Memory) }
{}
