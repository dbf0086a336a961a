//! Documents as rows write them.

ghost use Rattle.std.specs.Prelude.{◌≡◌, map, IfOk};
ghost use Rattle.row_settings.specs.Settings.{quoted_byte};

use std::alloc::Global;
use txn_types::{OutOfMemory, Text};

fn quoted_byte(byte: u8) -> u8
    ensures { result ≡ quoted_byte byte }
{
    if byte == b'\'' { b'"' } else { byte }
}

/// The bytes of a document in which ' stands for quotation marks.
pub fn quoted(alloc: Global, document: &[u8]) -> Result<Text, OutOfMemory>
    ensures { IfOk result (λ bytes. bytes ≡ map quoted_byte document.now) }
{
    let mut bytes = Text::new(alloc);
    for byte in document {
        bytes.push(quoted_byte(*byte))?;
    }
    Ok(bytes)
}
