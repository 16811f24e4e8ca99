//! Audits of a recorded call: `audit` says what `audit_with` says, but for the records.

use super::check;
use super::spelled::*;
use kmipa_check::{
    AuditFault, CheckFault, Refused, Verdict, WitnessFault, WitnessKind, audit, audit_with,
};
use kmipa_ops::Why;
use kmipa_ttlv::Input;
use std::alloc::Global;
use std::process::Abort;

// A transcript, a declaration and a witness.
type Files<'a> = (&'a [u8], &'a [u8], &'a [u8]);

// What `audit_with` says, without the records.
fn said(alloc: Global, (transcript, declaration, witness): Files) -> Result<Verdict, AuditFault> {
    let audited = audit_with(
        alloc,
        &mut Input::new(transcript),
        &mut Input::new(declaration),
        &mut Input::new(witness),
    );
    match audited {
        Ok(audited) => Ok(audited.verdict),
        Err(fault) => Err(fault),
    }
}

// What `audit` says.
fn said_alone(
    alloc: Global,
    (transcript, declaration, witness): Files,
) -> Result<Verdict, AuditFault> {
    audit(
        alloc,
        &mut Input::new(transcript),
        &mut Input::new(declaration),
        &mut Input::new(witness),
    )
}

// Checks that both say this of the example of one call, with a declaration of this entry and a witness of these parts.
fn check_both(
    rt: &impl Abort,
    alloc: Global,
    (entry, witness): (&str, &[&str]),
    expected: Result<Verdict, AuditFault>,
) {
    let transcript = bytes_of(rt, alloc, &ONE_CALL);
    let declaration = bytes_of(rt, alloc, &[DECLARATION, entry]);
    let witness = bytes_of(rt, alloc, witness);
    let files = (
        transcript.as_slice(),
        declaration.as_slice(),
        witness.as_slice(),
    );
    check(rt, said(alloc, files) == expected, "with the records");
    check(
        rt,
        said_alone(alloc, files) == expected,
        "without the records",
    );
}

#[test]
fn one_call_is_judged(rt: HostRuntime) {
    let alloc = rt.alloc();
    check_both(&rt, alloc, (ENTRY, &[WITNESS, TURN]), Ok(Verdict::Yes));
    let no = Verdict::No(Refused {
        turn: 1,
        call: 1,
        item: 1,
        why: Why::BytesDiffer,
    });
    check_both(&rt, alloc, (OTHER_ENTRY, &[WITNESS, TURN]), Ok(no));
    let fault = CheckFault::Witness(WitnessFault {
        at: 1,
        kind: WitnessKind::LeftOut,
    });
    check(&rt, fault.number() == 2, "another number");
    check_both(
        &rt,
        alloc,
        (ENTRY, &[WITNESS]),
        Err(AuditFault::Check(fault)),
    );
}
