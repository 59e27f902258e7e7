//! One form of a netlist by what may come next.

ghost use Rattle.std.specs.Prelude.{◌≡◌, [], ◌∷◌};
ghost use Rattle.text_forms.specs.Tokens.{token_of};
ghost use Rattle.verilog_net.specs.Forms.{role_of, first_form, start_forms, behind_module_forms};
ghost use Rattle.verilog_net.specs.Forms.{module_name_forms, header_forms, listed_forms, body_forms};
ghost use Rattle.verilog_net.specs.Forms.{left_bound_forms, right_bound_forms, declared_forms, opening_forms};
ghost use Rattle.verilog_net.specs.Forms.{pins_forms, connection_forms, quiet};
ghost use Rattle.verilog_net.specs.Forms.{connected_forms, closed_forms, forms_in};
ghost use Rattle.verilog_net.specs.Behind.{behind_one, behind_two};
ghost use Rattle.verilog_net.specs.declared.sort.Sort.TheVariants.{Name, LeftBracket, RightParen, Comma};
ghost use Rattle.verilog_net.specs.View.{item_text, whole_of, ReadsAs};

use crate::context::Context;
use crate::item::{FormRead, FormResult, Item};
use crate::netlist::PortRole;
use crate::sort::Sort;
use text_forms::{Term, Terms};
use xt_model::Code;

/// A form that was read, whose last token is in this line.
#[inline]
fn done(item: Item<'_>, line: u32, next: Context) -> FormRead<'_>
    ensures { whole_of result ≡ record { item = item_text item.entry; line = line; next = next } }
{
    FormRead { item, line, next }
}

/// What the word of a declaration makes of the names after it.
fn role_of(word: &[u8]) -> PortRole
    ensures { result ≡ role_of word.now }
{
    if word == b"input".as_slice() {
        PortRole::Input
    } else if word == b"output".as_slice() {
        PortRole::Output
    } else {
        PortRole::Inner
    }
}

/// At the start of a text.
fn at_start<'a>(terms: &mut Terms<'a, Sort>) -> FormResult<'a>
    ensures { ReadsAs result (first_form start_forms terms.old) terms.new }
{
    let first = terms.any()?;
    match first.sort {
        Sort::Module => Ok(done(Item::ModuleBegins, first.line, Context::ModuleName)),
        Sort::Unsupported => Ok(done(Item::Refused(Code::V1), first.line, Context::Done)),
        _ => Err(first.refused()),
    }
}

/// After `endmodule`.
fn behind_module<'a>(terms: &mut Terms<'a, Sort>) -> FormResult<'a>
    ensures { ReadsAs result (first_form behind_module_forms terms.old) terms.new }
{
    let first = terms.any()?;
    match first.sort {
        Sort::Module => Ok(done(Item::ModuleBegins, first.line, Context::ModuleName)),
        Sort::End => Ok(done(Item::Nothing, first.line, Context::Done)),
        Sort::Unsupported => Ok(done(Item::Refused(Code::V1), first.line, Context::Done)),
        _ => Err(first.refused()),
    }
}

/// The name of a module.
fn module_name<'a>(terms: &mut Terms<'a, Sort>) -> FormResult<'a>
    ensures { ReadsAs result (first_form module_name_forms terms.old) terms.new }
{
    let name = terms.expect(Sort::Name)?;
    Ok(done(Item::ModuleName(name.text), name.line, Context::Header))
}

/// A name of the header, after the `(` or the `,` before it.
fn header_name<'a>(mark: Term<'a, Sort>, terms: &mut Terms<'a, Sort>) -> FormResult<'a>
    ensures { ReadsAs result (behind_one Comma listed_forms (token_of mark.entry) terms.old) terms.new }
{
    let name = terms.any()?;
    match name.sort {
        Sort::Name => Ok(done(Item::Listed(name.text), name.line, Context::Listed)),
        Sort::Direction => Ok(done(Item::Refused(Code::V3), name.line, Context::Done)),
        _ => Err(name.refused()),
    }
}

/// After the `)` of the header.
fn header_end<'a>(paren: Term<'a, Sort>, terms: &mut Terms<'a, Sort>) -> FormResult<'a>
    ensures { ReadsAs result (behind_one RightParen listed_forms (token_of paren.entry) terms.old) terms.new }
{
    let second = terms.any()?;
    match second.sort {
        Sort::Semicolon => Ok(done(Item::Nothing, second.line, Context::Body)),
        Sort::Direction => Ok(done(Item::Refused(Code::V3), second.line, Context::Done)),
        _ => Err(second.refused()),
    }
}

/// After the name of a module.
fn header<'a>(terms: &mut Terms<'a, Sort>) -> FormResult<'a>
    ensures { ReadsAs result (first_form header_forms terms.old) terms.new }
{
    let first = terms.any()?;
    match first.sort {
        Sort::Semicolon => Ok(done(Item::Nothing, first.line, Context::Body)),
        Sort::LeftParen => header_name(first, terms),
        Sort::Direction => Ok(done(Item::Refused(Code::V3), first.line, Context::Done)),
        _ => Err(first.refused()),
    }
}

/// After a name of the header.
fn listed<'a>(terms: &mut Terms<'a, Sort>) -> FormResult<'a>
    ensures { ReadsAs result (first_form listed_forms terms.old) terms.new }
{
    let first = terms.any()?;
    match first.sort {
        Sort::Comma => header_name(first, terms),
        Sort::RightParen => header_end(first, terms),
        Sort::Direction => Ok(done(Item::Refused(Code::V3), first.line, Context::Done)),
        _ => Err(first.refused()),
    }
}

/// A statement, or the end of the module.
fn in_body<'a>(terms: &mut Terms<'a, Sort>) -> FormResult<'a>
    ensures { ReadsAs result (first_form body_forms terms.old) terms.new }
{
    let first = terms.any()?;
    match first.sort {
        Sort::Direction | Sort::NetType => {
            let role = role_of(first.text);
            let second = terms.any()?;
            match second.sort {
                Sort::Name => Ok(done(
                    Item::Scalar(role, second.text),
                    second.line,
                    Context::Declared,
                )),
                Sort::LeftBracket => {
                    let number = terms.expect(Sort::Number)?;
                    Ok(done(
                        Item::Left(role, number.text),
                        number.line,
                        Context::LeftBound,
                    ))
                }
                _ => Err(second.refused()),
            }
        }
        Sort::Name => {
            let name = terms.expect(Sort::Name)?;
            let item = Item::Instance(first.text, name.text, name.line);
            Ok(done(item, name.line, Context::Opening))
        }
        Sort::Endmodule => Ok(done(Item::ModuleEnds, first.line, Context::BehindModule)),
        _ => Err(first.refused()),
    }
}

/// After the left bound of a range.
fn left_bound<'a>(terms: &mut Terms<'a, Sort>) -> FormResult<'a>
    ensures { ReadsAs result (first_form left_bound_forms terms.old) terms.new }
{
    terms.expect(Sort::Colon)?;
    let number = terms.expect(Sort::Number)?;
    Ok(done(Item::Right(number.text), number.line, Context::RightBound))
}

/// After the right bound of a range.
fn right_bound<'a>(terms: &mut Terms<'a, Sort>) -> FormResult<'a>
    ensures { ReadsAs result (first_form right_bound_forms terms.old) terms.new }
{
    terms.expect(Sort::RightBracket)?;
    let name = terms.expect(Sort::Name)?;
    Ok(done(Item::Further(name.text), name.line, Context::Declared))
}

/// After a declared name.
fn declared<'a>(terms: &mut Terms<'a, Sort>) -> FormResult<'a>
    ensures { ReadsAs result (first_form declared_forms terms.old) terms.new }
{
    let first = terms.any()?;
    match first.sort {
        Sort::Comma => {
            let name = terms.expect(Sort::Name)?;
            Ok(done(Item::Further(name.text), name.line, Context::Declared))
        }
        Sort::Semicolon => Ok(done(Item::Nothing, first.line, Context::Body)),
        _ => Err(first.refused()),
    }
}

/// After the name of an instance.
fn opening<'a>(terms: &mut Terms<'a, Sort>) -> FormResult<'a>
    ensures { ReadsAs result (first_form opening_forms terms.old) terms.new }
{
    let first = terms.any()?;
    match first.sort {
        Sort::LeftParen => Ok(done(Item::Nothing, first.line, Context::Pins)),
        Sort::LeftBracket => Ok(done(Item::Refused(Code::V3), first.line, Context::Done)),
        _ => Err(first.refused()),
    }
}

/// After the `(` of an instance.
fn pins<'a>(terms: &mut Terms<'a, Sort>) -> FormResult<'a>
    ensures { ReadsAs result (first_form pins_forms terms.old) terms.new }
{
    let first = terms.any()?;
    match first.sort {
        Sort::RightParen => Ok(done(Item::InstanceEnds, first.line, Context::Closed)),
        Sort::Dot => {
            let name = terms.expect(Sort::Name)?;
            Ok(done(Item::Pin(name.text), name.line, Context::Pin))
        }
        Sort::Name | Sort::Constant | Sort::LeftBrace => {
            Ok(done(Item::Refused(Code::V3), first.line, Context::Done))
        }
        _ => Err(first.refused()),
    }
}

/// A mark that alone may come next. It is inlined, so that the token is not written to memory.
#[inline(always)]
fn mark<'a>(sort: Sort, next: Context, terms: &mut Terms<'a, Sort>) -> FormResult<'a>
    ensures { ReadsAs result (first_form (quiet (sort ∷ []) next ∷ []) terms.old) terms.new }
{
    let mark = terms.expect(sort)?;
    Ok(done(Item::Nothing, mark.line, next))
}

/// After the `[` of a bit to which a pin is connected.
fn bit<'a>(
    bus: Term<'a, Sort>,
    bracket: Term<'a, Sort>,
    terms: &mut Terms<'a, Sort>,
) -> FormResult<'a>
    ensures { ReadsAs result
        (behind_two Name LeftBracket connection_forms (token_of bus.entry) (token_of bracket.entry) terms.old)
        terms.new }
{
    let number = terms.expect(Sort::Number)?;
    let last = terms.any()?;
    match last.sort {
        Sort::RightBracket => {
            let item = Item::Bit(bus.text, number.text);
            Ok(done(item, last.line, Context::BitGiven))
        }
        Sort::Colon => Ok(done(Item::Refused(Code::V3), last.line, Context::Done)),
        _ => Err(last.refused()),
    }
}

/// After a name to which a pin is connected.
fn net_or_bit<'a>(name: Term<'a, Sort>, terms: &mut Terms<'a, Sort>) -> FormResult<'a>
    ensures { ReadsAs result (behind_one Name connection_forms (token_of name.entry) terms.old) terms.new }
{
    let second = terms.any()?;
    match second.sort {
        Sort::RightParen => Ok(done(Item::Net(name.text), second.line, Context::Connected)),
        Sort::LeftBracket => bit(name, second, terms),
        _ => Err(second.refused()),
    }
}

/// After the `(` of a pin.
fn connection<'a>(terms: &mut Terms<'a, Sort>) -> FormResult<'a>
    ensures { ReadsAs result (first_form connection_forms terms.old) terms.new }
{
    let first = terms.any()?;
    match first.sort {
        Sort::RightParen => Ok(done(Item::NoConnection, first.line, Context::Connected)),
        Sort::Constant => {
            let paren = terms.expect(Sort::RightParen)?;
            Ok(done(Item::Constant, paren.line, Context::Connected))
        }
        Sort::Name => net_or_bit(first, terms),
        Sort::LeftBrace => Ok(done(Item::Refused(Code::V3), first.line, Context::Done)),
        _ => Err(first.refused()),
    }
}

/// After the `,` of a pin.
fn further_pin<'a>(comma: Term<'a, Sort>, terms: &mut Terms<'a, Sort>) -> FormResult<'a>
    ensures { ReadsAs result (behind_one Comma connected_forms (token_of comma.entry) terms.old) terms.new }
{
    let second = terms.any()?;
    match second.sort {
        Sort::Dot => {
            let name = terms.expect(Sort::Name)?;
            Ok(done(Item::Pin(name.text), name.line, Context::Pin))
        }
        Sort::Name | Sort::Constant | Sort::LeftBrace => {
            Ok(done(Item::Refused(Code::V3), second.line, Context::Done))
        }
        _ => Err(second.refused()),
    }
}

/// After the `)` of a pin.
fn connected<'a>(terms: &mut Terms<'a, Sort>) -> FormResult<'a>
    ensures { ReadsAs result (first_form connected_forms terms.old) terms.new }
{
    let first = terms.any()?;
    match first.sort {
        Sort::RightParen => Ok(done(Item::InstanceEnds, first.line, Context::Closed)),
        Sort::Comma => further_pin(first, terms),
        _ => Err(first.refused()),
    }
}

/// After the `)` of an instance.
fn closed<'a>(terms: &mut Terms<'a, Sort>) -> FormResult<'a>
    ensures { ReadsAs result (first_form closed_forms terms.old) terms.new }
{
    let first = terms.any()?;
    match first.sort {
        Sort::Comma => {
            let name = terms.expect(Sort::Name)?;
            let item = Item::FurtherInstance(name.text, name.line);
            Ok(done(item, name.line, Context::Opening))
        }
        Sort::Semicolon => Ok(done(Item::Nothing, first.line, Context::Body)),
        _ => Err(first.refused()),
    }
}

/// The next form.
pub fn read_form<'a>(context: Context, terms: &mut Terms<'a, Sort>) -> FormResult<'a>
    ensures { ReadsAs result (first_form (forms_in context) terms.old) terms.new }
{
    match context {
        Context::Start => at_start(terms),
        Context::BehindModule => behind_module(terms),
        Context::ModuleName => module_name(terms),
        Context::Header => header(terms),
        Context::Listed => listed(terms),
        Context::Body => in_body(terms),
        Context::LeftBound => left_bound(terms),
        Context::RightBound => right_bound(terms),
        Context::Declared => declared(terms),
        Context::Opening => opening(terms),
        Context::Pins => pins(terms),
        Context::Pin => mark(Sort::LeftParen, Context::Connection, terms),
        Context::Connection => connection(terms),
        Context::BitGiven => mark(Sort::RightParen, Context::Connected, terms),
        Context::Connected => connected(terms),
        Context::Closed => closed(terms),
        Context::Done => Err(terms.any()?.refused()),
    }
}
