//! Programs made at random, of at most thirty nodes, over all forms and operators.
//!
//! An expression is made from a text with holes: each hole is filled with a form of its kind, which may have holes itself. The names x,
//! y, f and g are defined around the whole, and inner blocks and functions define them again, so every use of them is allowed wherever it
//! stands. The names a and b are inputs.
use crate::trials::Random;
use std::alloc::Global;
use std::test::Fail;

/// A hole for a number, for a truth, for a list, and for a string or word; and for what x, y and f are defined as. No program has such a
/// byte.
const HOLES: [u8; 7] = *b"#?@$~!|";

/// What each program defines, and the hole that its right side fills.
const DEFINED: [(&str, u8); 4] = [("x", b'~'), ("y", b'!'), ("f(x)", b'|'), ("g(x, y)", b'?')];

/// A form: the hole that it fills, how many nodes it has beyond one, each of its holes counted as one, and its text.
pub type Form = (u8, u32, &'static str);

pub static FORMS: [Form; 141] = [
    (b'#', 0, "0"),
    (b'#', 0, "1"),
    (b'#', 0, "2"),
    (b'#', 0, "x"),
    (b'#', 0, "x"),
    (b'#', 0, "x"),
    (b'#', 0, "x"),
    (b'#', 0, "a"),
    (b'#', 0, "a"),
    (b'#', 0, "b"),
    (b'#', 0, "error"),
    (b'#', 0, "eod"),
    (b'#', 2, "(# + #)"),
    (b'#', 2, "(# - #)"),
    (b'#', 2, "(# * #)"),
    (b'#', 2, "(# div #)"),
    (b'#', 2, "(# mod #)"),
    (b'#', 2, "(# ** #)"),
    (b'#', 1, "(- #)"),
    (b'#', 1, "(abs #)"),
    (b'#', 2, "(# cmp #)"),
    (b'#', 1, "(length @)"),
    (b'#', 1, "(length $)"),
    (b'#', 1, "(hd @)"),
    (b'#', 2, "nth(@, #)"),
    (b'#', 3, "if ? then # else # fi"),
    (b'#', 1, "(first #)"),
    (b'#', 1, "(next #)"),
    (b'#', 2, "(# fby #)"),
    (b'#', 2, "(# whenever ?)"),
    (b'#', 2, "(# asa ?)"),
    (b'#', 2, "(# upon ?)"),
    (b'#', 2, "(# attime #)"),
    (b'#', 1, "(initial #)"),
    (b'#', 1, "(succ #)"),
    (b'#', 2, "(# sby #)"),
    (b'#', 2, "(# atspace #)"),
    (b'#', 1, "f(#)"),
    (b'#', 1, "f(#)"),
    (b'#', 1, "f(#)"),
    (b'#', 3, "f(x - 1)"),
    (b'#', 3, "if y then # else # fi"),
    (b'#', 2, "(# where x = #; end)"),
    (b'#', 2, "(# where y = ?; end)"),
    (b'#', 2, "(# where f(x) = #; end)"),
    (b'#', 2, "(# where x is current #; end)"),
    (b'#', 3, "(# where x is current #; y = ?; end)"),
    (b'#', 3, "(# where x is current #; f(y) = #; end)"),
    (b'#', 4, "(0 fby x + 1)"),
    (b'#', 4, "(0 fby x + 1)"),
    (b'#', 4, "(x asa x eq 2)"),
    (b'#', 2, "(x fby #)"),
    (b'#', 2, "(# + x)"),
    (b'#', 4, "(1 fby x * 2)"),
    (b'#', 5, "(a fby x + next a)"),
    (b'#', 4, "(1 sby x + 1)"),
    (b'#', 5, "(1 sby x + succ x)"),
    (b'?', 0, "true"),
    (b'?', 0, "false"),
    (b'?', 0, "y"),
    (b'?', 0, "y"),
    (b'?', 0, "y"),
    (b'?', 0, "b"),
    (b'?', 0, "b"),
    (b'?', 2, "(# eq #)"),
    (b'?', 2, "(# ne #)"),
    (b'?', 2, "(# < #)"),
    (b'?', 2, "(# <= #)"),
    (b'?', 2, "(# > #)"),
    (b'?', 2, "(# >= #)"),
    (b'?', 2, "($ < $)"),
    (b'?', 2, "(@ eq @)"),
    (b'?', 1, "(not ?)"),
    (b'?', 2, "(? and ?)"),
    (b'?', 2, "(? or ?)"),
    (b'?', 1, "(isint #)"),
    (b'?', 1, "(isword $)"),
    (b'?', 1, "(isstring $)"),
    (b'?', 1, "(islist @)"),
    (b'?', 1, "(istruth ?)"),
    (b'?', 1, "(isnull @)"),
    (b'?', 1, "(isatom @)"),
    (b'?', 1, "(iseod #)"),
    (b'?', 1, "(iserror #)"),
    (b'?', 3, "if ? then ? else ? fi"),
    (b'?', 1, "(next ?)"),
    (b'?', 2, "(? fby ?)"),
    (b'?', 2, "(? sby ?)"),
    (b'?', 2, "(? whenever ?)"),
    (b'?', 2, "(? upon ?)"),
    (b'?', 2, "g(#, ?)"),
    (b'?', 2, "g(#, ?)"),
    (b'?', 2, "(x > #)"),
    (b'?', 2, "(? where y = ?; end)"),
    (b'?', 2, "(? where g(x, y) = ?; end)"),
    (b'?', 2, "(? where y is current ?; end)"),
    (b'?', 3, "(true fby not y)"),
    (b'?', 4, "(true fby false fby y)"),
    (b'?', 3, "(true sby not y)"),
    (b'@', 0, "[]"),
    (b'@', 0, "[% 1 [% dog %] %]"),
    (b'@', 0, "b"),
    (b'@', 2, "(# :: @)"),
    (b'@', 2, "(? :: @)"),
    (b'@', 2, "(@ <> @)"),
    (b'@', 1, "(tl @)"),
    (b'@', 2, "(@ fby @)"),
    (b'@', 4, "([] fby 1 :: x)"),
    (b'@', 2, "(@ whenever ?)"),
    (b'@', 1, "(succ @)"),
    (b'$', 0, "`ab'"),
    (b'$', 0, "\"dog\""),
    (b'$', 0, "`'"),
    (b'$', 0, "b"),
    (b'$', 2, "($ ^ $)"),
    (b'$', 3, "substr($, #, #)"),
    (b'$', 1, "(mkstring #)"),
    (b'$', 1, "(mkstring $)"),
    (b'$', 1, "(mkword $)"),
    (b'$', 2, "($ asa ?)"),
    (b'$', 1, "(initial $)"),
    (b'~', 0, "#"),
    (b'~', 4, "(# fby x + #)"),
    (b'~', 4, "(# fby x - #)"),
    (b'~', 7, "(# fby if ? then x + # else x fi)"),
    (b'~', 5, "(# fby f(x) + #)"),
    (b'~', 5, "(a fby x + next a)"),
    (b'~', 4, "(# sby x + #)"),
    (b'~', 7, "((# sby 0) fby (x + succ x))"),
    (b'!', 0, "?"),
    (b'!', 3, "(? fby not y)"),
    (b'!', 4, "(? fby ? fby y)"),
    (b'!', 4, "(? fby (y or ?))"),
    (b'!', 2, "(x > #)"),
    (b'!', 4, "((x mod 2) eq #)"),
    (b'|', 0, "#"),
    (b'|', 8, "if x < 1 then # else f(x - 1) fi"),
    (b'|', 10, "if x < 1 then # else x * f(x - #) fi"),
    (b'|', 7, "(s where s = x fby s + next x; end)"),
    (b'|', 4, "(n + x where n is current #; end)"),
    (b'|', 5, "(n fby f(n) where n is current x; end)"),
];

// A form fills the hole, and has at least and at most so many nodes beyond one.
fn fits(form: &Form, hole: u8, least: u32, most: u32) -> bool {
    let (fills, more, _) = *form;
    fills == hole && least <= more && more <= most
}

// The number of a form that fits.
fn form_for(random: &mut Random, hole: u8, least: u32, most: u32) -> Option<usize> {
    let fitting = FORMS
        .iter()
        .filter(|form| fits(form, hole, least, most))
        .count();
    let place = random.below(u32::try_from(fitting).ok()?) as usize;
    let mut numbers = (0..FORMS.len()).filter(|number| FORMS
        .get(*number)
        .is_some_and(|form| fits(form, hole, least, most)));
    numbers.nth(place)
}

/// What is made: the random numbers, and how often each form was used.
#[derive(Drop)]
pub struct Maker {
    pub random: Random,
    pub uses: [u32; 141],
}

impl Maker {
    /// A maker whose random numbers follow a seed.
    pub const fn of(seed: u64) -> Maker {
        Maker {
            random: Random { state: seed },
            uses: [0; 141],
        }
    }

    // What fills a hole with no more nodes than are left, now and then by a form of another kind; nothing for a byte that is no hole.
    fn filling(&mut self, byte: u8, least: u32, left: u32) -> Option<Form> {
        if !HOLES.contains(&byte) {
            return None;
        }
        let mut hole = byte;
        if self.random.below(30) == 0 {
            hole = *HOLES.get(self.random.below(4) as usize)?;
        }
        let number = match form_for(&mut self.random, hole, least, left) {
            Some(number) => number,
            None => form_for(&mut self.random, hole, 0, left)?,
        };
        let uses = self.uses.get_mut(number)?;
        *uses = uses.saturating_add(1);
        FORMS.get(number).copied()
    }

    // An expression of at most so many nodes that fills a hole, with more than one where that is allowed.
    fn expression(&mut self, alloc: Global, hole: u8, nodes: u32) -> Result<String, Fail> {
        let mut left = nodes.saturating_sub(1);
        let mut work = Vec::new(alloc);
        work.push(hole)?;
        let mut text = Vec::new(alloc);
        for step in 0..10_000 {
            let Some(byte) = work.pop() else { break };
            match self.filling(byte, u32::from(step == 0), left) {
                Some((_, more, form)) => {
                    left = left.saturating_sub(more);
                    for byte in form.as_bytes().iter().rev() {
                        work.push(*byte)?;
                    }
                }
                None => text.push(byte)?,
            }
        }
        Ok(String::from_utf8(text)?)
    }

    // Nodes for one of the parts, of those that are left.
    fn share(&mut self, left: &mut u32) -> u32 {
        let nodes = self.random.below((*left / 2).saturating_add(1));
        *left = left.saturating_sub(nodes);
        nodes.saturating_add(1)
    }

    /// A program: a block with two names and two functions, of at most thirty nodes.
    pub fn program(&mut self, alloc: Global) -> Result<String, Fail> {
        let mut left = 24;
        let mut definitions = String::new(alloc);
        for (name, hole) in DEFINED {
            let nodes = self.share(&mut left);
            let right = self.expression(alloc, hole, nodes)?;
            write!(definitions, "{name} = {right}; ")?;
        }
        let subject = self.expression(alloc, b'#', left.saturating_add(1))?;
        Ok(format!(in alloc; "{subject} where {definitions}end")?)
    }
}
