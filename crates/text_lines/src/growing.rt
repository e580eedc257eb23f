//! Texts that grow at their end.
ghost use Rattle.std.specs.Prelude.{◌≡◌, ◌++◌, OnOk, OnErr};

use net_base::Memory;

/// Adds a word to a text. Where memory is wanting the text stays as it was.
pub fn add_word(text: &mut Vec<u8>, word: &str) -> Result<(), Memory>
    ensures ok { OnOk result (text.new.items ≡ text.old.items ++ word.now) }
    ensures err { OnErr result (text.new.items ≡ text.old.items) }
{
    text.extend_from_slice(word.as_bytes())?;
    Ok(())
}

/// Adds a text that was made for it, and frees it. Where memory is wanting the text stays as it was.
pub fn add_made(text: &mut Vec<u8>, made: Vec<u8>) -> Result<(), Memory>
    ensures ok { OnOk result (text.new.items ≡ text.old.items ++ made.items) }
    ensures err { OnErr result (text.new.items ≡ text.old.items) }
{
    let added = text.extend_from_slice(&made);
    drop(made);
    Ok(added?)
}
