//! Names as they are meant.

ghost use Rattle.std.specs.Prelude.{◌≡◌, false, ◌++◌, OnOk};
ghost use Rattle.spef_read.specs.Names.{meant, unescaped, has_size, sized, mapped_name, whole_name, pair_name};
ghost use Rattle.text_forms.specs.Stops.{Changes, Computes};

use crate::map::NameMap;
use crate::marks::Marks;
use crate::words::{are_digits, split_at_mark, without_zeros};
use name_parts::{Prefix, PrefixedName};
use std::alloc::{AllocError, Global};
use text_forms::Stop;
use xt_model::Code;
use xt_model::limits::MOST_NAME;

/// What a byte of a name is that has no backslash before it.
#[inline]
fn meant(marks: Marks, byte: u8) -> u8
    ensures { result ≡ meant marks byte }
{
    if byte == marks.divider {
        b'/'
    } else if byte == marks.left {
        b'['
    } else if byte == marks.right {
        b']'
    } else {
        byte
    }
}

/// Appends the bytes of a name as they are meant.
fn push_unescaped(marks: Marks, word: &[u8], out: &mut PrefixedName) -> Result<(), AllocError>
    ensures { OnOk result (out.new ≡ out.old ++ unescaped marks false word.now) }
{
    let mut kept = false;
    let mut rest = word;
    'bytes: while let [byte, more @ ..] = rest {
        if *byte == b'\\' {
            kept = true;
        } else {
            let own = if kept { *byte } else { meant(marks, *byte) };
            out.push(own)?;
            kept = false;
        }
        rest = more;
    }
    Ok(())
}

/// Whether a name has as many bytes as a name may have.
#[inline]
fn has_size(name: &PrefixedName) -> bool
    ensures { result ≡ has_size name.now }
{
    !(name.len() == 0) && name.len() <= MOST_NAME
}

/// Refuses a name of another size.
#[inline]
fn sized(name: &PrefixedName) -> Result<(), Stop>
    ensures { Changes result name.now (sized name.now) }
{
    if has_size(name) {
        Ok(())
    } else {
        Err(Stop::Refused(Code::S1))
    }
}

/// Makes `out` the name that a word without a `*` in front means.
fn plain_name(marks: Marks, word: &[u8], out: &mut PrefixedName) -> Result<(), Stop>
    ensures { Changes result out.new (sized (unescaped marks false word.now)) }
{
    out.start(None)?;
    push_unescaped(marks, word, out)?;
    sized(out)
}

/// Makes `out` the name that `*` means with these bytes after it.
#[tactic(auto, using(crate::proofs::MapLaws::mapped_by))]
fn mapped_name<'a>(
    marks: Marks,
    map: &mut NameMap<'a>,
    more: &'a [u8],
    out: &mut PrefixedName,
) -> Result<(), Stop>
    ensures kept { map.new ≡ map.old }
    ensures exact { Changes result out.new (mapped_name marks map.old more.entry.now) }
{
    let (index, behind) = split_at_mark(marks.delimiter, more);
    if !are_digits(index) {
        return Err(Stop::Refused(Code::S1));
    }
    if !map.start(without_zeros(index), out)? {
        return Err(Stop::Refused(Code::S5));
    }
    push_unescaped(marks, behind, out)?;
    sized(out)
}

/// Makes `out` the whole name that a word means.
#[tactic(auto, unfolding(crate::specs::Names::whole_name))]
pub fn whole_name<'a>(
    marks: Marks,
    map: &mut NameMap<'a>,
    word: &'a [u8],
    out: &mut PrefixedName,
) -> Result<(), Stop>
    ensures kept { map.new ≡ map.old }
    ensures exact { Changes result out.new (whole_name marks map.old word.entry.now) }
{
    match word {
        [] => Err(Stop::Refused(Code::S1)),
        [b'*', more @ ..] => mapped_name(marks, map, more, out),
        [_, ..] => plain_name(marks, word, out),
    }
}

/// The name of a pair of the name map.
#[tactic(auto, unfolding(crate::specs::Names::pair_name))]
pub fn pair_name(alloc: Global, marks: Marks, word: &[u8]) -> Result<Prefix, Stop>
    ensures { Computes (λ n. n) result (pair_name marks word.now) }
{
    match word {
        [] | [b'*', ..] => Err(Stop::Refused(Code::S1)),
        [_, ..] => {
            let mut name = PrefixedName::new(alloc);
            plain_name(marks, word, &mut name)?;
            let bytes = name.parts().to_vec(alloc)?;
            Ok(Prefix::new(alloc, bytes)?)
        }
    }
}
