//! `++` and `--` (ECMA-262 5.1 sections 11.3, 11.4.4 and 11.4.5).

ghost use Rattle.std.specs.Prelude.{◌≡◌, Some, pos};
ghost use Rattle.js_values.specs.declared.value.Value.{Value};
ghost use Rattle.js_values.specs.declared.value.Value.TheVariants.{Num};
ghost use Rattle.page_meaning.specs.Act.{also};
ghost use Rattle.page_meaning.specs.Names.{read as spec_read, write as spec_write};
ghost use Rattle.page_meaning.specs.Operators as spec;
ghost use Rattle.page_meaning.specs.HostPuts.{put_member as spec_put};
ghost use Rattle.page_state.specs.Does.{Gives, itself};
ghost use Rattle.page_state.specs.Updates.{changed, put_back};

use crate::fault::Fault;
use crate::state::State;
use js_core::{Units, Whole};
use js_values::Value;
use page_meaning::Reference;
use whole_ops::{add, sub};

impl State {
    /// The number and one, or less one.
    pub fn one_more(&mut self, up: bool, number: Whole) -> Result<Whole, Fault>
        ensures { Gives Num (λ _. spec.one_more up (Num number)) self.old self.new result }
    {
        if up {
            self.in_range(add(number, one()))
        } else {
            self.in_range(sub(number, one()))
        }
    }

    /// A name by what it meant is updated: the number after its change where the operator stands before it, and else the
    /// number before.
    pub fn update_name(
        &mut self,
        up: bool,
        prefix: bool,
        name: &Units,
        reference: Reference,
    ) -> Result<Value, Fault>
        ensures { Gives itself (λ calls. also (spec_read name.now reference)
            (spec.update_with calls up prefix (spec_write name.now reference))) self.old self.new
            result }
    {
        let value = self.read(name, reference)?;
        self.update_name_of(up, prefix, name, reference, &value)
    }

    // The same of a name that had this value.
    fn update_name_of(
        &mut self,
        up: bool,
        prefix: bool,
        name: &Units,
        reference: Reference,
        value: &Value,
    ) -> Result<Value, Fault>
        ensures { Gives itself (λ calls. spec.update_with calls up prefix
            (spec_write name.now reference) value.now) self.old self.new result }
    {
        let old = self.to_number(value)?;
        self.change_name(up, prefix, name, reference, old)
    }

    // The same of a name that had this number.
    fn change_name(
        &mut self,
        up: bool,
        prefix: bool,
        name: &Units,
        reference: Reference,
        old: Whole,
    ) -> Result<Value, Fault>
        ensures { Gives itself (λ _. changed up prefix (spec_write name.now reference) (Num old))
            self.old self.new result }
    {
        let new = self.one_more(up, old)?;
        self.put_back_name(prefix, name, reference, old, new)
    }

    // A name takes its new number.
    fn put_back_name(
        &mut self,
        prefix: bool,
        name: &Units,
        reference: Reference,
        old: Whole,
        new: Whole,
    ) -> Result<Value, Fault>
        ensures { Gives itself (λ _. put_back prefix (spec_write name.now reference) (Num old)
            (Num new)) self.old self.new result }
    {
        let _written = self.write(name, reference, Value::Num(new))?;
        Ok(updated(prefix, old, new))
    }

    /// A property that had this value is updated, in the same way.
    pub fn update_member(
        &mut self,
        up: bool,
        prefix: bool,
        base: &Value,
        name: &Units,
        value: &Value,
    ) -> Result<Value, Fault>
        ensures { Gives itself (λ calls. spec.update_with calls up prefix
            (spec_put calls base.now name.now) value.now) self.old self.new result }
    {
        let old = self.to_number(value)?;
        self.change_member(up, prefix, base, name, old)
    }

    // The same of a property that had this number.
    fn change_member(
        &mut self,
        up: bool,
        prefix: bool,
        base: &Value,
        name: &Units,
        old: Whole,
    ) -> Result<Value, Fault>
        ensures { Gives itself (λ calls. changed up prefix (spec_put calls base.now name.now)
            (Num old)) self.old self.new result }
    {
        let new = self.one_more(up, old)?;
        self.put_back_member(prefix, base, name, old, new)
    }

    // A property takes its new number.
    fn put_back_member(
        &mut self,
        prefix: bool,
        base: &Value,
        name: &Units,
        old: Whole,
        new: Whole,
    ) -> Result<Value, Fault>
        ensures { Gives itself (λ calls. put_back prefix (spec_put calls base.now name.now)
            (Num old) (Num new)) self.old self.new result }
    {
        let _put = self.put_member(base, name, Value::Num(new))?;
        Ok(updated(prefix, old, new))
    }
}

fn one() -> Whole
    ensures { result ≡ Some (pos 1) }
{
    Whole::new(1).unwrap()
}

// What an update gives.
fn updated(prefix: bool, old: Whole, new: Whole) -> Value
    ensures { result ≡ spec.updated_value prefix (Num old) (Num new) }
{
    if prefix {
        Value::Num(new)
    } else {
        Value::Num(old)
    }
}
