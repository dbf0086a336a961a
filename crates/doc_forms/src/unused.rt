//! Keys that a form doesn't list.

ghost use Rattle.std.specs.Prelude.{◌≡◌, map};
ghost use Rattle.serde_json.specs.View.{members_view};
ghost use Rattle.doc_forms.specs.Answers.{Gives};
ghost use Rattle.doc_forms.specs.Forms.{only, is_listed};

use crate::fault::{DocFault, Path, Step};
use serde_json::{Map, Value};
use std::alloc::Global;
use txn_types::Text;

fn is_listed(keys: &[&str], key: &str) -> bool
    ensures { result ≡ is_listed (map (λ k. k.now) keys.now) key.now }
{
    for other in keys {
        if *other == key {
            return true;
        }
    }
    false
}

/// No key but these; else the first other one in byte order is at fault.
pub fn only(alloc: Global, keys: &[&str], members: &Map<String, Value>) -> Result<(), DocFault>
    ensures { Gives (λ u. u) result (only (map (λ k. k.now) keys.now) (members_view members.now.entries)) }
{
    for (key, _) in members {
        if !is_listed(keys, key.as_str()) {
            let mut text = Text::new(alloc);
            text.append(key.as_bytes())?;
            let mut path = Path::new(alloc);
            path.push_front(Step::Key(text))?;
            return Err(DocFault::Field { path });
        }
    }
    Ok(())
}
