//! The document, read from the source.

ghost use Rattle.std.specs.Prelude.{IfOk, IfErr};
ghost use Rattle.input_doc.specs.LawfulInputs.{IsLawfulInput};
ghost use Rattle.input_doc.specs.Held.{input_of};
ghost use Rattle.par_top.specs.Endings.{IsNoText};
ghost use Rattle.par_top.specs.Texts.{IsRead};

use crate::{DocFault, Status, Which};
use input_doc::{Input, read_input};
use par_io::{ReadFail, Source, read_all};
use std::alloc::Global;

/// The greatest length of a document in bytes.
const DOCUMENT_LIMIT: usize = 4_194_304;

/// What the source's bytes mean, or why they mean nothing.
pub fn read_document<S: Source>(alloc: Global, source: &mut S) -> Result<Input, Status>
    ensures read { IfOk result (λ input. IsRead (S.rest source.old) (S.rest source.new) (input_of input)) }
    ensures lawful { IfOk result (λ input. IsLawfulInput (input_of input)) }
    ensures none { IfErr result (IsNoText (Unit {0}) (S.faults source.old) (S.faults source.new) (S.rest source.old) (S.rest source.new)) }
{
    let bytes = match read_all(alloc, source, DOCUMENT_LIMIT) {
        Ok(bytes) => bytes,
        Err(ReadFail::Fault) => return Err(Status::ReadFault),
        Err(ReadFail::TooLong) => {
            return Err(Status::Refused(DocFault::Limit {
                which: Which::Document,
                limit: DOCUMENT_LIMIT as u64,
            }));
        }
        Err(ReadFail::OutOfMemory) => return Err(Status::OutOfMemory),
    };
    match read_input(alloc, bytes.as_slice()) {
        Ok(input) => Ok(input),
        Err(DocFault::OutOfMemory) => Err(Status::OutOfMemory),
        Err(fault) => Err(Status::Refused(fault)),
    }
}
