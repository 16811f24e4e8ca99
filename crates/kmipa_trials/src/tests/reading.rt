//! Messages and files that are read from spelled bytes.

ghost use Rattle.kmipa_record.specs.Declarations.{AreDeclared, declaration_of};

use super::spelled::bytes_of;
use kmipa_msgs::{Request, Response, read_request, read_response};
use kmipa_record::{
    Declaration, Transcript, Witness, read_declaration, read_transcript, read_witness,
};
use kmipa_ttlv::{Input, View, decode_view};
use std::alloc::Global;
use std::process::Abort;

// The item at the front of bytes.
pub(crate) fn view_of<'a>(rt: &impl Abort, bytes: &'a [u8]) -> View<'a> {
    let (view, _) = decode_view(bytes).expect(rt, "an item");
    view
}

// A request and its answer.
pub(crate) fn call_of<'a>(
    rt: &impl Abort,
    alloc: Global,
    asked: &'a [u8],
    answered: &'a [u8],
) -> (Request<'a>, Response<'a>) {
    let request = read_request(alloc, &view_of(rt, asked)).expect(rt, "a request");
    let response = read_response(alloc, &view_of(rt, answered), &request).expect(rt, "a response");
    (request, response)
}

pub(crate) fn transcript_of(rt: &impl Abort, alloc: Global, parts: &[&str]) -> Transcript {
    let bytes = bytes_of(rt, alloc, parts);
    read_transcript(alloc, &mut Input::new(bytes.as_slice())).expect(rt, "a transcript")
}

pub(crate) fn declared(rt: &impl Abort, alloc: Global, parts: &[&str]) -> Declaration
    ensures { AreDeclared (declaration_of result) }
{
    let bytes = bytes_of(rt, alloc, parts);
    read_declaration(alloc, &mut Input::new(bytes.as_slice())).expect(rt, "a declaration")
}

pub(crate) fn witness_of(rt: &impl Abort, alloc: Global, parts: &[&str]) -> Witness {
    let bytes = bytes_of(rt, alloc, parts);
    read_witness(alloc, &mut Input::new(bytes.as_slice())).expect(rt, "a witness")
}
