//! From sources to trees, and from values to texts.
use lucid_demand::DemandFault;
use lucid_parse::parse;
use lucid_scan::scan;
use lucid_scope::{Scoped, resolve};
use lucid_value::Value;
use std::alloc::Global;
use std::test::Fail;

/// What stands for the answer of a demand that is too deep.
pub const TOO_DEEP: &str = "too deep";

/// The tree of a source, with what its names belong to.
pub fn scoped_of(alloc: Global, source: &str) -> Result<Scoped, Fail> {
    let tokens = scan(alloc, source.as_bytes())?;
    let tree = parse(alloc, source.as_bytes(), &tokens)?;
    Ok(resolve(alloc, &tree)?)
}

/// The text of a value.
pub fn value_text(alloc: Global, value: &Value) -> Result<String, Fail> {
    let mut bytes = Vec::new(alloc);
    value.show(alloc, &mut bytes)?;
    Ok(String::from_utf8(bytes)?)
}

/// The text of an answer: that of the value, or what the demand is refused for.
pub fn answer_text(alloc: Global, answer: &Result<Value, DemandFault>) -> Result<String, Fail> {
    let refusal = match answer {
        Ok(value) => return value_text(alloc, value),
        Err(DemandFault::TooDeep) => TOO_DEEP,
        Err(DemandFault::ReadFault) => "read fault",
        Err(DemandFault::TooLarge { .. }) => "too large",
        Err(DemandFault::NoMemory) => "no memory",
    };
    Ok(String::from_str(alloc, refusal)?)
}
