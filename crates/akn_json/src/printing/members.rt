//! Members of objects: a key with its value.

ghost use Rattle.std.specs.Prelude.{◌≡◌, [], ◌∷◌, ◌++◌, OnOk};
ghost use Rattle.std.specs.Fmt.{decimal};
ghost use Rattle.json.specs.Token.{key, string, number, boolean};

use desk_base::Memory;
use json::Writer;

pub fn put_text(out: &mut Writer, name: &str, text: &str) -> Result<(), Memory>
    ensures tokens { OnOk result (out.new.tokens
        ≡ out.old.tokens ++ key name.now ∷ string text.now ∷ []) }
    ensures before { OnOk result (out.new.before ≡ out.old.before) }
{
    out.key(name)?;
    out.string(text)?;
    Ok(())
}

pub fn put_number(out: &mut Writer, name: &str, n: u64) -> Result<(), Memory>
    ensures tokens { OnOk result (out.new.tokens
        ≡ out.old.tokens ++ key name.now ∷ number (decimal n) ∷ []) }
    ensures before { OnOk result (out.new.before ≡ out.old.before) }
{
    out.key(name)?;
    out.u64(n)?;
    Ok(())
}

pub fn put_flag(out: &mut Writer, name: &str, holds: bool) -> Result<(), Memory>
    ensures tokens { OnOk result (out.new.tokens
        ≡ out.old.tokens ++ key name.now ∷ boolean holds ∷ []) }
    ensures before { OnOk result (out.new.before ≡ out.old.before) }
{
    out.key(name)?;
    out.boolean(holds)?;
    Ok(())
}
