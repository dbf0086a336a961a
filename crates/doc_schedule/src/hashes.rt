//! The previous hash that a false message names.

ghost use Rattle.std.specs.Prelude.{◌≡◌};
ghost use Rattle.serde_json.specs.View.{members_view};
ghost use Rattle.doc_forms.specs.Answers.{Gives};
ghost use Rattle.doc_forms.specs.Forms.{seen};
ghost use Rattle.doc_schedule.specs.Hashes.{hash_of, prev, prev_at};

use doc_forms::{DocFault, at, field_fault, member};
use hex::FromHex;
use serde_json::{Map, Value};
use std::alloc::Global;

#[tactic(auto, unfolding(crate::specs::Hashes::hash_of))]
fn hash_of(text: &str) -> Option<[u8; 32]>
    ensures { result ≡ hash_of text.now }
{
    let bytes = <[u8; 32] as FromHex>::from_hex(text).ok()?;
    let mut digits = [0u8; 64];
    hex::encode_to_slice(bytes.as_slice(), &mut digits).unwrap();
    if digits.as_slice() == text.as_bytes() {
        Some(bytes)
    } else {
        None
    }
}

// A hash of 64 lower-case hexadecimal digits, which may be left out.
#[tactic(auto, unfolding(crate::specs::Hashes::prev))]
fn prev(alloc: Global, value: Option<&Value>) -> Result<Option<[u8; 32]>, DocFault>
    ensures { Gives (λ hash. hash) result (prev (seen value.entry)) }
{
    let Some(value) = value else {
        return Ok(None);
    };
    let Some(text) = value.as_str() else {
        return Err(field_fault(alloc));
    };
    match hash_of(text) {
        Some(hash) => Ok(Some(hash)),
        None => Err(field_fault(alloc)),
    }
}

/// The previous hash of a `block` event, which may be left out.
pub fn prev_at(alloc: Global, members: &Map<String, Value>) -> Result<Option<[u8; 32]>, DocFault>
    ensures { Gives (λ hash. hash) result (prev_at (members_view members.now.entries)) }
{
    at(alloc, "prev", prev(alloc, member(members, "prev")))
}
