//! What the types of numbers and texts tell of what is written.

ghost use Rattle.std.specs.List.{All};
ghost use Rattle.js_core.specs.Text.{AllUnits};
ghost use Rattle.page_writer.specs.Literals.{HasLiterals, HaveLiterals, IsLiteral, maker_values, need_values};

use js_core::Units;
use js_values::Value;
use rebuild_plan::{Maker, Rebuild};

// Each unit has 16 bits.
fn tell_text(text: &Units)
    ensures { AllUnits text.now }
{
    text.as_slice();
}

fn tell_value(value: &Value)
    ensures { IsLiteral value.now }
{
    match value {
        Value::Num(number) => {
            number.get();
        }
        Value::Text(text) => tell_text(text),
        Value::Undefined | Value::Null | Value::Bool(_) | Value::Object(_) => {}
    }
}

fn tell_values(values: &[Value])
    ensures { All IsLiteral values.now }
{
    let mut rest = values;
    while let [value, after @ ..] = rest {
        tell_value(value);
        rest = after;
    }
}

fn tell_needs(needs: &[(Units, Value)])
    ensures { All IsLiteral (need_values needs.now) }
{
    let mut rest = needs;
    while let [need, after @ ..] = rest {
        tell_value(&need.1);
        rest = after;
    }
}

fn tell_maker(maker: &Maker)
    ensures { All IsLiteral (maker_values maker.now) }
{
    match maker {
        Maker::Func { needs, .. } => tell_needs(needs.as_slice()),
        Maker::Bind { this, args, .. } => {
            tell_value(this);
            tell_values(args.as_slice());
        }
        Maker::Element(text) | Maker::Text(text) | Maker::Comment(text) => tell_text(text),
        Maker::Plain(_) | Maker::List | Maker::Fault(_) | Maker::Event => {}
    }
}

fn tell_statement(rebuild: &Rebuild)
    ensures { HasLiterals rebuild.now }
{
    match rebuild {
        Rebuild::Make { maker, .. } => tell_maker(maker),
        Rebuild::Attribute { name, value, .. } => {
            tell_text(name);
            tell_text(value);
        }
        Rebuild::SetValue { text, .. } => tell_text(text),
        Rebuild::Init { kind, .. } | Rebuild::Listen { kind, .. } => tell_text(kind),
        Rebuild::Define { name, prop, .. } => {
            tell_text(name);
            tell_value(&prop.value);
        }
        Rebuild::DefinePrototype { value, .. } | Rebuild::DefineLength { value, .. } => {
            tell_value(value);
        }
        Rebuild::Append { .. }
        | Rebuild::Dispatch { .. }
        | Rebuild::Filler
        | Rebuild::Clear { .. }
        | Rebuild::Timeout { .. }
        | Rebuild::Interval { .. }
        | Rebuild::Prevent { .. } => {}
    }
}

/// The numbers of a plan are numbers of the language, and its texts have 16-bit units.
pub fn tell_plan(plan: &[Rebuild])
    ensures { HaveLiterals plan.now }
{
    let mut rest = plan;
    while let [rebuild, after @ ..] = rest {
        tell_statement(rebuild);
        rest = after;
    }
}
