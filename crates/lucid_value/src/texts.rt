//! The operations on strings: two joined, and one cut.
ghost use Rattle.std.specs.Prelude.{◌≡◌, ◌++◌, ◌<◌, IfOk, IsTrue, ◌↔◌, ◌+◌, length};
ghost use Rattle.lucid_value.specs.Plain.{fault, is_text, most_weight};
ghost use Rattle.lucid_value.specs.View.{plain};
ghost use Rattle.lucid_value.specs.Texts.{limited_text, cut_of};

use crate::{MAX_WEIGHT, Text, Value};
use std::alloc::{AllocError, Global};
use std::rc::Rc;

impl Text {
    // The string of bytes that keep its rule.
    fn of(alloc: Global, bytes: Vec<u8>) -> Result<Text, AllocError>
        requires rule { IsTrue (is_text bytes.items) }
        requires light { length bytes.items < most_weight }
        ensures { IfOk result (λ text. text ≡ bytes.items) }
    {
        Ok(Text {
            bytes: Rc::new(alloc, bytes)?,
        })
    }
}

/// The two strings, one after the other, or `Fault` past the limit of weight.
#[tactic(auto, using(crate::proofs::TextRules::text_joined, crate::proofs::TextRules::over_weight))]
pub fn join(alloc: Global, left: &Text, right: &Text) -> Result<Value, AllocError>
    ensures value { IfOk result (λ value. plain value ≡ limited_text (left.now ++ right.now)) }
    ensures over { IfOk result (λ value. (plain value ≡ fault) ↔ (most_weight < length left.now + length right.now + 1)) }
{
    left.keeps_rules();
    right.keeps_rules();
    if left.bytes().len() + right.bytes().len() >= MAX_WEIGHT as usize {
        return Ok(Value::Fault);
    }
    let mut bytes = Vec::from_slice(alloc, left.bytes())?;
    bytes.extend_from_slice(right.bytes())?;
    Ok(Value::Text(Text::of(alloc, bytes)?))
}

/// The bytes of the text at the places `from` to `to` - 1, from 0, or `Fault` where there are no such places.
#[tactic(auto, using(crate::proofs::TextRules::text_cut))]
pub fn cut(alloc: Global, text: &Text, from: i128, to: i128) -> Result<Value, AllocError>
    ensures { IfOk result (λ value. plain value ≡ cut_of text.now from to) }
{
    text.keeps_rules();
    let bytes = text.bytes();
    if from < 0 || to < from || to > bytes.len() as i128 {
        return Ok(Value::Fault);
    }
    let part = Vec::from_slice(alloc, &bytes[from as usize..to as usize])?;
    Ok(Value::Text(Text::of(alloc, part)?))
}
