//! Writing the text of pairs.

ghost use Rattle.std.specs.Prelude.{◌≡◌, ◌++◌, OnOk, OnErr, IfOk, IsOkUnless};
ghost use Rattle.iscsi_text.specs.Pairs.{spelled, text_of};

use crate::fault::TextFault;
use crate::list::Pairs;
use std::alloc::Global;

/// Appends a pair to a text, in the form of the text. The only fault is out of memory, which leaves the text
/// unchanged.
pub fn put_pair(text: &mut Vec<u8>, key: &str, value: &str) -> Result<(), TextFault>
    ensures put { OnOk result (text.new.items ≡ text.old.items ++ spelled (key.now, value.now)) }
    ensures unchanged { OnErr result (text.new.items ≡ text.old.items) }
    ensures memory { IsOkUnless result TextFault.Memory }
{
    // Reserves room for all of it at once, so that no part is put if there is no room for the rest.
    text.reserve(key.len().saturating_add(value.len()).saturating_add(2))?;
    text.extend_from_slice(key.as_bytes())?;
    text.push(b'=')?;
    text.extend_from_slice(value.as_bytes())?;
    text.push(0)?;
    Ok(())
}

/// Returns the text of pairs (RFC 7143 §6.1). The only fault is out of memory.
pub fn text(alloc: Global, pairs: &Pairs) -> Result<Vec<u8>, TextFault>
    ensures written { IfOk result (λ bytes. bytes.items ≡ text_of pairs.now) }
    ensures memory { IsOkUnless result TextFault.Memory }
{
    let mut bytes = Vec::new(alloc);
    for at in 0..pairs.len() {
        let (key, value) = pairs.pair(at);
        put_pair(&mut bytes, key, value)?;
    }
    Ok(bytes)
}
