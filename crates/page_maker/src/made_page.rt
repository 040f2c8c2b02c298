//! The text of a generated page.

ghost use Rattle.std.specs.Prelude.{◌≡◌, ◌++◌, IfOk, OnOk};
ghost use Rattle.page_maker.specs.Page as spec;

use crate::generator::Generator;
use crate::text::{push_bytes, push_number};
use js_core::OutOfMemory;
use std::alloc::Global;

const OPENING: &[u8] = b"<html><body></body><script>\"use strict\";\n\
    var parts=[],sum=0;\n";

/// The function that makes a part.
const PART: &[u8] = b"function part(i,k){var n=k,o={\"id\":i,\"next\":null},\
    d=document.createElement(\"p\");o.self=o;\n\
    if(parts.length>0){o.next=parts[parts.length-1].o;}\n\
    d.setAttribute(\"id\",\"p\"+i);\n\
    d.addEventListener(\"click\",function(){n=n+1;sum=sum+n;},false);\n\
    document.body.appendChild(d);\n\
    setInterval(function(){n=n+k;},10+k);\n\
    parts.push({\"o\":o,\"get\":function(){return n;}});}\n";

/// The function that prints the sums.
const TOTAL: &[u8] = b"function total(){var s=0;\
    parts.forEach(function(p){if(p.o.self===p.o){s=s+p.get();}});\
    console.log(s,sum,parts.length);}\n";

const TAIL: &[u8] = b"</script></html>";

/// Where the numbers end that parts start with.
const START_END: u64 = 10;

/// The text of the page with so many parts.
pub fn page(alloc: Global, parts: u32) -> Result<Vec<u8>, OutOfMemory>
    ensures { IfOk result (λ text. text.items ≡ spec.page parts) }
{
    let mut out = Vec::new(alloc);
    push_head(&mut out)?;
    push_calls(parts, &mut out)?;
    push_bytes(TAIL, &mut out)?;
    Ok(out)
}

// All before the first part is made.
fn push_head(out: &mut Vec<u8>) -> Result<(), OutOfMemory>
    ensures { OnOk result (out.new.items ≡ out.old.items ++ spec.head) }
{
    push_bytes(OPENING, out)?;
    push_bytes(PART, out)?;
    push_bytes(TOTAL, out)
}

// The calls that make the parts.
fn push_calls(parts: u32, out: &mut Vec<u8>) -> Result<(), OutOfMemory>
    ensures { OnOk result (out.new.items ≡ out.old.items ++ spec.calls parts) }
{
    let mut generator = Generator::after(0);
    for made in 0..u64::from(parts) {
        push_call(made + 1, generator.draw() % START_END, out)?;
    }
    Ok(())
}

fn push_call(number: u64, start: u64, out: &mut Vec<u8>) -> Result<(), OutOfMemory>
    ensures { OnOk result (out.new.items ≡ out.old.items ++ spec.call number start) }
{
    push_bytes(b"part(", out)?;
    push_number(number, out)?;
    push_bytes(b",", out)?;
    push_number(start, out)?;
    push_bytes(b");\n", out)
}
